//! The environment that the commands of a plan run in.

ghost use Rattle.std.specs.Prelude.{◌≡◌, ◌<◌, [], ◌∷◌, ◌++◌, ℕ, List, map, length, IfOk, IfSome, OnOk, string_bytes};
ghost use Rattle.texts.specs.Variables.{pair_of};
ghost use Rattle.dry_runs.specs.Environment as spec;
ghost use Rattle.command_groups.specs.Views.{variable_place, named_stage};
ghost use Rattle.command_groups.specs.Plan.{environment_of};

use crate::stage::Stage;
use std::alloc::{AllocError, Global};
use std::marker::Model;
use texts::variables::Variables;

fn place_of(environment: &[(String, String)], name: &str) -> Option<usize>
    ensures place { result ≡ variable_place name.now (map pair_of environment.now) }
    ensures within { IfSome result (λ place. place < length environment.now) }
{
    let mut place = 0;
    for pair in environment {
        if pair.0.as_str() == name {
            return Some(place);
        }
        place += 1;
    }
    None
}

// Sets a variable: if its name is known, the first pair of that name gets the new value; else the pair comes last.
fn set(
    environment: &mut Vec<(String, String)>,
    name: String,
    value: String,
) -> Result<(), AllocError>
    ensures { OnOk result (map pair_of environment.new.items ≡ spec.with_variable (map pair_of environment.old.items) (string_bytes name, string_bytes value)) }
{
    match place_of(environment.as_slice(), name.as_str()) {
        None => environment.push((name, value))?,
        Some(place) => environment[place].1 = value,
    }
    Ok(())
}

/// An environment with the variables that a dry run's environment lines set, one after the other.
pub fn with_variables(
    alloc: Global,
    env_vars: &[(String, String)],
    variables: Variables,
) -> Result<Variables, AllocError>
    ensures { IfOk result (λ v. v ≡ spec.with_variables (map pair_of env_vars.now) variables) }
{
    let mut environment = Variables::copy_of(alloc, env_vars)?.into_vec()?;
    environment.reserve(variables.len())?;
    for (name, value) in variables.into_vec()? {
        set(&mut environment, name, value)?;
    }
    Ok(Variables::from_vec(environment))
}

// The environment with one more pair, of a name and an empty value, which its copies share.
fn marked(alloc: Global, name: &str, env_vars: &Variables) -> Result<Variables, AllocError>
    ensures { IfOk result (λ environment. environment ≡ env_vars.now ++ (name.now, []) ∷ []) }
{
    let mut environment = env_vars.try_clone(alloc)?;
    let name = String::from_str(alloc, name)?;
    environment.push(name, String::new(alloc))?;
    environment.share(alloc)
}

/// The environments of a plan's commands, which the commands share. Contracts see the one that most commands have.
#[derive(Drop)]
pub struct Environments {
    // What most commands have.
    plain: Variables,
    // What host compilers have: by one more pair sccache's server counts them as CUDA.
    marked: Variables,
}

impl Model for Environments {
    ghost use Rattle.std.specs.Prelude.{◌≡◌, List, ℕ};
    ghost use Rattle.command_groups.specs.Plan.{environment_of};
    ghost use Rattle.command_groups.specs.Stage.{host_compiling};

    ghost Value = { List (List ℕ × List ℕ) };

    ghost view = { λ e. e.plain };

    ghost invariant = { λ e. e.marked ≡ environment_of host_compiling e.plain };
}

impl Environments {
    /// The environments of commands that run in `env_vars`, with what a dry run's environment lines set.
    pub fn folded(
        alloc: Global,
        env_vars: &[(String, String)],
        variables: Variables,
    ) -> Result<Environments, AllocError>
        ensures { IfOk result (λ environments. environments ≡ spec.with_variables (map pair_of env_vars.now) variables) }
    {
        let env_vars = with_variables(alloc, env_vars, variables)?;
        let marked = marked(alloc, "__SCCACHE_THIS_IS_A_CUDA_COMPILATION__", &env_vars)?;
        Ok(Environments {
            plain: env_vars.share(alloc)?,
            marked,
        })
    }

    /// The environment of a stage.
    pub fn of_stage(&self, alloc: Global, stage: Stage) -> Result<Variables, AllocError>
        ensures { IfOk result (λ environment. (words : List (List ℕ)) → environment ≡ environment_of (named_stage stage words) self.now) }
    {
        match stage {
            Stage::HostCompiling => self.marked.try_clone(alloc),
            Stage::Linking
            | Stage::Splitting
            | Stage::DeviceCompiling
            | Stage::Assembling
            | Stage::Preprocessing
            | Stage::Foreign => self.plain.try_clone(alloc),
        }
    }
}

//! Laws on scripts, Ninja files and `==` of tools, and worked examples.

ghost use Rattle.texts.specs.Equality.{TellsEqual};
ghost use Rattle.plan_texts.specs.Examples.{LineOfCicc, BareCharacters, DashRefused, NewlineHeld, NewlineRefused, EdgeOfCicc, EdgesOfFatbin};
ghost use Rattle.plan_texts.specs.ReadBack.{CommandsReadBack, ScriptsReadBack};
ghost use Rattle.plan_texts.specs.ReadGraph.{EdgesReadBack, GraphsReadBack, ValuesReadBack};

use crate::tool::Tool;

/// `==` on tools says whether two tools are equal.
pub fn equality()
    ensures { TellsEqual ⟦<Tool as PartialEq>⟧.eq }
{}

/// A POSIX shell reads a command's text as the command, and nothing else: its directory, its variables, the words that run it,
/// its program and its words (`commands`). It reads a script as `set -e`, `mkdir -p` with the temporary
/// directory, and then each command of the plan, in order (`scripts`). The
/// grammar is `Posix` of `texts`, in which a `;` outside of quotes ends a command, and text that a shell would act on has no
/// reading.
pub fn read_back()
    ensures commands { CommandsReadBack }
    ensures scripts { ScriptsReadBack }
{}

/// The definitions give these texts for a small command.
pub fn worked_scripts()
    ensures line_of_cicc { LineOfCicc }
    ensures bare_characters { BareCharacters }
    ensures dash_refused { DashRefused }
    ensures newline_held { NewlineHeld }
    ensures newline_refused { NewlineRefused }
{}

/// A POSIX shell reads what an edge of a Ninja file runs as the command and then `touch`, with any words in the place of the expansions of
/// `ZIGRUNK_RUNNER` and `ZIGRUNK_LAUNCHER`. The grammar is `Posix` of `texts`.
pub fn edges_read_back()
    ensures { EdgesReadBack }
{}

/// Ninja reads each written value as the original text.
pub fn values_read_back()
    ensures { ValuesReadBack }
{}

/// Ninja reads a written file as one edge for each command of the plan, in order. The edge makes the command's stamp, needs
/// exactly the stamps of the commands that the command needs (`command_files::needs`), and runs the command.
pub fn graphs_read_back()
    ensures { GraphsReadBack }
{}

/// The definitions give these edges for a small command and for a real plan.
pub fn worked_exports()
    ensures edge_of_cicc { EdgeOfCicc }
    ensures edges_of_fatbin { EdgesOfFatbin }
{}

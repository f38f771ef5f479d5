//! cicc, cudafe++ and ptxas as compilers, and the files that their lines name: they differ in their tables, languages and writers.

ghost use Rattle.std.specs.Prelude.{◌≡◌, true, map, IfOk, string_bytes, option_map};
ghost use Rattle.compilers.specs.Command.{written};
ghost use Rattle.compilers.specs.declared.compiler.CCompilerKind.TheVariants as kinds;
ghost use Rattle.device_lines.specs.Cicc.{cicc_answer, cicc_reading};
ghost use Rattle.device_lines.specs.CudaFE.{cudafe_answer, cudafe_reading};
ghost use Rattle.device_lines.specs.DeviceWords as words;
ghost use Rattle.device_lines.specs.LineFiles.{files_of};
ghost use Rattle.device_lines.specs.Ptxas.{ptxas_answer, ptxas_reading};

use crate::cicc::{self, Cicc};
use crate::cudafe::{self, CudaFE};
use crate::ptxas::{self, Ptxas};
use crate::reader::{LineFiles, line_files_of, parse_arguments};
use compilers::arguments::{CompilerArguments, ParsedArguments};
use compilers::command::{Cacheable, SingleCompileCommand};
use compilers::compiler::{CCompilerImpl, CCompilerKind, Places};
use std::alloc::{AllocError, Global};
use texts::fault::Fault;
use texts::language::Language;
use texts::text::Text;

impl Cicc {
    /// Copies the value into memory of its own.
    pub fn try_clone(&self, alloc: Global) -> Result<Cicc, AllocError>
        ensures { IfOk result (λ c. c ≡ self.now) }
    {
        let version = Text::clone_optional(alloc, &self.version)?;
        Ok(Cicc { version })
    }
}

impl CCompilerImpl for Cicc {
    type Command = SingleCompileCommand;

    ghost kind = { λ _. kinds.Cicc };

    ghost plusplus = { λ _. true };

    ghost version = { λ c. c.version };

    ghost reading = { λ _ line cwd _. cicc_answer cwd line };

    ghost writing = { λ _ executable p cwd env_vars _. written words.cicc_words executable p cwd env_vars };

    fn kind(&self) -> CCompilerKind {
        CCompilerKind::Cicc
    }

    fn plusplus(&self) -> bool {
        true
    }

    fn version(&self, alloc: Global) -> Result<Option<String>, AllocError> {
        Ok(Text::clone_optional(alloc, &self.version)?.map(Text::into_string))
    }

    fn parse_arguments(
        &self,
        alloc: Global,
        arguments: &[String],
        cwd: &str,
        _env_vars: &[(String, String)],
    ) -> Result<CompilerArguments<ParsedArguments>, AllocError> {
        parse_arguments(alloc, arguments, cwd, Language::Ptx, cicc::table(), 3)
    }

    fn generate_compile_commands(
        &self,
        alloc: Global,
        executable: &str,
        parsed_args: &ParsedArguments,
        cwd: &str,
        env_vars: &[(String, String)],
        _places: &Places,
    ) -> Result<(SingleCompileCommand, Cacheable), Fault> {
        cicc::generate_compile_commands(alloc, executable, parsed_args, cwd, env_vars)
    }
}

impl CudaFE {
    /// Copies the value into memory of its own.
    pub fn try_clone(&self, alloc: Global) -> Result<CudaFE, AllocError>
        ensures { IfOk result (λ c. c ≡ self.now) }
    {
        let version = Text::clone_optional(alloc, &self.version)?;
        Ok(CudaFE { version })
    }
}

impl CCompilerImpl for CudaFE {
    type Command = SingleCompileCommand;

    ghost kind = { λ _. kinds.CudaFE };

    ghost plusplus = { λ _. true };

    ghost version = { λ c. c.version };

    ghost reading = { λ _ line cwd _. cudafe_answer cwd line };

    ghost writing = { λ _ executable p cwd env_vars _. written words.cudafe_words executable p cwd env_vars };

    fn kind(&self) -> CCompilerKind {
        CCompilerKind::CudaFE
    }

    fn plusplus(&self) -> bool {
        true
    }

    fn version(&self, alloc: Global) -> Result<Option<String>, AllocError> {
        Ok(Text::clone_optional(alloc, &self.version)?.map(Text::into_string))
    }

    fn parse_arguments(
        &self,
        alloc: Global,
        arguments: &[String],
        cwd: &str,
        _env_vars: &[(String, String)],
    ) -> Result<CompilerArguments<ParsedArguments>, AllocError> {
        parse_arguments(alloc, arguments, cwd, Language::CudaFE, cudafe::table(), 1)
    }

    fn generate_compile_commands(
        &self,
        alloc: Global,
        executable: &str,
        parsed_args: &ParsedArguments,
        cwd: &str,
        env_vars: &[(String, String)],
        _places: &Places,
    ) -> Result<(SingleCompileCommand, Cacheable), Fault> {
        cudafe::generate_compile_commands(alloc, executable, parsed_args, cwd, env_vars)
    }
}

impl Ptxas {
    /// Copies the value into memory of its own.
    pub fn try_clone(&self, alloc: Global) -> Result<Ptxas, AllocError>
        ensures { IfOk result (λ c. c ≡ self.now) }
    {
        let version = Text::clone_optional(alloc, &self.version)?;
        Ok(Ptxas { version })
    }
}

impl CCompilerImpl for Ptxas {
    type Command = SingleCompileCommand;

    ghost kind = { λ _. kinds.Ptxas };

    ghost plusplus = { λ _. true };

    ghost version = { λ c. c.version };

    ghost reading = { λ _ line cwd _. ptxas_answer cwd line };

    ghost writing = { λ _ executable p cwd env_vars _. written words.cicc_words executable p cwd env_vars };

    fn kind(&self) -> CCompilerKind {
        CCompilerKind::Ptxas
    }

    fn plusplus(&self) -> bool {
        true
    }

    fn version(&self, alloc: Global) -> Result<Option<String>, AllocError> {
        Ok(Text::clone_optional(alloc, &self.version)?.map(Text::into_string))
    }

    fn parse_arguments(
        &self,
        alloc: Global,
        arguments: &[String],
        cwd: &str,
        _env_vars: &[(String, String)],
    ) -> Result<CompilerArguments<ParsedArguments>, AllocError> {
        parse_arguments(alloc, arguments, cwd, Language::Cubin, ptxas::table(), 3)
    }

    fn generate_compile_commands(
        &self,
        alloc: Global,
        executable: &str,
        parsed_args: &ParsedArguments,
        cwd: &str,
        env_vars: &[(String, String)],
        _places: &Places,
    ) -> Result<(SingleCompileCommand, Cacheable), Fault> {
        cicc::generate_compile_commands(alloc, executable, parsed_args, cwd, env_vars)
    }
}

/// The files that a cicc line names, if it has an input.
pub fn cicc_line_files(
    alloc: Global,
    words: &[String],
    cwd: &str,
) -> Result<Option<LineFiles>, AllocError>
    ensures { IfOk result (λ f. f ≡ option_map (files_of cwd.now) (cicc_reading cwd.now (map string_bytes words.now))) }
{
    line_files_of(alloc, words, cwd, Language::Ptx, cicc::table(), 3)
}

/// The files that a cudafe++ line names, if it has an input.
pub fn cudafe_line_files(
    alloc: Global,
    words: &[String],
    cwd: &str,
) -> Result<Option<LineFiles>, AllocError>
    ensures { IfOk result (λ f. f ≡ option_map (files_of cwd.now) (cudafe_reading cwd.now (map string_bytes words.now))) }
{
    line_files_of(alloc, words, cwd, Language::CudaFE, cudafe::table(), 1)
}

/// The files that a ptxas line names, if it has an input.
pub fn ptxas_line_files(
    alloc: Global,
    words: &[String],
    cwd: &str,
) -> Result<Option<LineFiles>, AllocError>
    ensures { IfOk result (λ f. f ≡ option_map (files_of cwd.now) (ptxas_reading cwd.now (map string_bytes words.now))) }
{
    line_files_of(alloc, words, cwd, Language::Cubin, ptxas::table(), 3)
}

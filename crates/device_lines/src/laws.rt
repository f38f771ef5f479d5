//! Laws of the lines of cicc, cudafe++ and ptxas, and examples worked out by hand.

ghost use Rattle.std.specs.Prelude.{List, ℕ, Option};
ghost use Rattle.texts.specs.Equality.{TellsEqual};
ghost use Rattle.compilers.specs.Table.{Entry};
ghost use Rattle.device_lines.specs.declared.options.ArgData as options;
ghost use Rattle.device_lines.specs.DeviceExamples.{DeviceCodeLineIsRead, DeviceCodeLine, InputIsCutOutFirst, ShortLineIsNoCompilation, ThirdWordFromTheEndIsTheInput, FaultyItemIsDropped, HostLineIsRead};
ghost use Rattle.device_lines.specs.Reread as spec;
ghost use Rattle.device_lines.specs.RereadExamples.{DeviceCodeLineRereads, RenamedHostLineRereads, HostLineRereads, AssemblerLineRereads, EmptyValueIsLost, SecondInputComesFirst, RelativeFolderIsJoinedTwice};

use crate::cicc::Cicc;
use crate::cudafe::CudaFE;
use crate::options::ArgData;
use crate::ptxas::Ptxas;

/// A law over all lines: reading a cicc, ptxas or cudafe++ line, writing it back and reading that again, at the same
/// working directory, gives the same arguments.
///
/// The premises are: the working directory is absolute, at most one word of a cicc or ptxas line has the input's
/// suffix, and no ptxas option has an empty value joined to it (`cicc`, `ptxas`, `cudafe`). The other two parts are
/// about the common and unhashed words. They hold over every table, for every line in which no value is both joined
/// and empty: these words are read as the items that they were written for (`items`), and have the same common and
/// unhashed words (`words`).
pub fn reread()
    ensures items { (chosen : List ℕ → Option (Entry options.ArgData)) → spec.KeptWordsReadBack chosen }
    ensures words { (chosen : List ℕ → Option (Entry options.ArgData)) → spec.KeptWordsStay chosen }
    ensures cicc { spec.CiccLinesReread }
    ensures ptxas { spec.PtxasLinesReread }
    ensures cudafe { spec.CudaFELinesReread }
{}

/// No premise of `reread` can be dropped, for any tool that has it. Some ptxas lines don't reread if options have
/// empty values joined to them (`ptxas_empty_value`). Some cicc and ptxas lines don't if two words have the input's
/// suffix (`cicc_one_input`, `ptxas_one_input`). Some lines of each tool don't at a working directory that isn't
/// absolute (`cicc_absolute_folder`, `ptxas_absolute_folder`, `cudafe_absolute_folder`).
pub fn rereading_needs()
    ensures ptxas_empty_value { spec.PtxasLinesRereadWithEmptyValues → ⊥ }
    ensures cicc_one_input { spec.CiccLinesRereadWithSeveralInputs → ⊥ }
    ensures ptxas_one_input { spec.PtxasLinesRereadWithSeveralInputs → ⊥ }
    ensures cicc_absolute_folder { spec.CiccLinesRereadAnywhere → ⊥ }
    ensures ptxas_absolute_folder { spec.PtxasLinesRereadAnywhere → ⊥ }
    ensures cudafe_absolute_folder { spec.CudaFELinesRereadAnywhere → ⊥ }
{}

/// Examples: what lines are read as and written back as, by the definitions.
pub fn worked_lines()
    ensures device_code_line_is_read { DeviceCodeLineIsRead }
    ensures device_code_line { DeviceCodeLine }
    ensures input_is_cut_out_first { InputIsCutOutFirst }
    ensures short_line_is_no_compilation { ShortLineIsNoCompilation }
    ensures third_word_from_the_end_is_the_input { ThirdWordFromTheEndIsTheInput }
    ensures faulty_item_is_dropped { FaultyItemIsDropped }
    ensures host_line_is_read { HostLineIsRead }
{}

/// Examples: lines that are written back and read again, by the definitions.
///
/// Four of them are read as the same arguments. The other three show why `reread` has its premises: an empty value
/// (`empty_value_is_lost`), two words with the input's suffix (`second_input_comes_first`) and a relative working
/// directory (`relative_folder_is_joined_twice`).
pub fn worked_rereadings()
    ensures device_code_line_rereads { DeviceCodeLineRereads }
    ensures renamed_host_line_rereads { RenamedHostLineRereads }
    ensures host_line_rereads { HostLineRereads }
    ensures assembler_line_rereads { AssemblerLineRereads }
    ensures empty_value_is_lost { EmptyValueIsLost }
    ensures second_input_comes_first { SecondInputComesFirst }
    ensures relative_folder_is_joined_twice { RelativeFolderIsJoinedTwice }
{}

/// `==` on the compilers and on the kinds of options is true exactly for equal values.
pub fn equality()
    ensures cicc { TellsEqual ⟦<Cicc as PartialEq>⟧.eq }
    ensures cudafe { TellsEqual ⟦<CudaFE as PartialEq>⟧.eq }
    ensures ptxas { TellsEqual ⟦<Ptxas as PartialEq>⟧.eq }
    ensures kind { TellsEqual ⟦<ArgData as PartialEq>⟧.eq }
{}

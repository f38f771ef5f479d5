//! A host compile in two halves, and fatbinary beside the first of them.

ghost use Rattle.std.specs.Prelude.{◌≡◌, IfOk, map, option_copied, string_bytes};
ghost use Rattle.texts.specs.Lists.{rest_after};
ghost use Rattle.early_starts.specs.Splits as spec;

use crate::words::{Half, late_words};
use command_files::{CommandFiles, files_of, has_word};
use compilers::command::Cacheable;
use compilers::plans::NvccGeneratedSubcommand;
use std::alloc::{AllocError, Global};
use texts::extension::with_extension;
use texts::text::{Text, join};
use texts::words::Words;

/// Where the files go that a split adds to a plan's.
#[derive(Debug, Drop)]
pub struct Places {
    /// The assembler text.
    pub text_file: Text,
    /// What fatbinary writes for the host compiler.
    pub fatbin_file: Text,
    /// What the assembler includes of that.
    pub included: Text,
}

/// What takes the place of a plan's last two commands, fatbinary's and a host compile.
#[derive(Debug, Drop)]
pub struct Split {
    /// fatbinary, which writes its file for the host compiler elsewhere.
    pub fatbinary: NvccGeneratedSubcommand,
    /// The compiler, which makes assembler text.
    pub compiler: NvccGeneratedSubcommand,
    /// The assembler, which makes the object.
    pub assembler: NvccGeneratedSubcommand,
    /// The file through which the compiler reads the fatbin: a placeholder has to be there when it starts.
    pub read: Text,
    /// cicc's file, which cudafe++'s includes.
    pub stub: Text,
    /// Whether the fatbin is linked with others.
    pub is_linked: bool,
}

/// The words of a split's commands.
#[derive(Debug, Drop)]
pub struct SplitWords {
    pub fatbinary: Words,
    pub compiler: Words,
    pub assembler: Words,
}

// The option of fatbinary that names the file for the host compiler, in one word with the name.
fn embedded_option() -> &'static str
    ensures { result.now ≡ spec.embedded_option }
{
    "--embedded-fatbin="
}

// The file that a word with this option names.
fn embedded_in(word: &str) -> Option<&str>
    ensures { option_copied result ≡ rest_after spec.embedded_option word.now }
{
    word.strip_prefix(embedded_option())
}

// The first file that words name so.
fn embedded(words: &[String]) -> Option<&str>
    ensures { option_copied result ≡ spec.embedded (map string_bytes words.now) }
{
    for word in words {
        if let Some(file) = embedded_in(word.as_str()) {
            return Some(file);
        }
    }
    None
}

// The word with another file's name, if it has this option.
fn moved_word(alloc: Global, to: &str, word: &str) -> Result<String, AllocError>
    ensures { IfOk result (λ moved. string_bytes moved ≡ spec.moved_word to.now word.now) }
{
    if !word.as_bytes().starts_with(embedded_option().as_bytes()) {
        return String::from_str(alloc, word);
    }
    let mut moved = String::from_str(alloc, embedded_option())?;
    moved.push_str(to)?;
    Ok(moved)
}

fn moved_words(alloc: Global, to: &str, words: &[String]) -> Result<Words, AllocError>
    ensures { IfOk result (λ moved. moved ≡ map (spec.moved_word to.now) (map string_bytes words.now)) }
{
    let mut moved = Words::with_capacity(alloc, words.len())?;
    for word in words {
        moved.push(moved_word(alloc, to, word.as_str())?)?;
    }
    Ok(moved)
}

// A command with other words, for which no cache answers.
fn with_words(
    alloc: Global,
    command: &NvccGeneratedSubcommand,
    words: &Words,
) -> Result<NvccGeneratedSubcommand, AllocError>
    ensures { IfOk result (λ other. other ≡ spec.with_words command.now words.now) }
{
    Ok(NvccGeneratedSubcommand {
        exe: command.exe.try_clone(alloc)?,
        args: words.try_clone(alloc)?,
        cwd: command.cwd.try_clone(alloc)?,
        env_vars: command.env_vars.try_clone(alloc)?,
        cacheable: Cacheable::No,
    })
}

// The words of a split, given those of fatbinary and of a host compile.
fn words_of(
    alloc: Global,
    places: &Places,
    fatbinary: &[String],
    compile: &[String],
) -> Result<Option<SplitWords>, AllocError>
    ensures { IfOk result (λ words. words ≡ spec.words_of places.now (map string_bytes fatbinary.now) (map string_bytes compile.now)) }
{
    let text_file = places.text_file.as_str();
    let Some(compiler) = late_words(alloc, Half::Compiler, compile, text_file)? else {
        return Ok(None);
    };
    let Some(assembler) = late_words(alloc, Half::Assembler, compile, text_file)? else {
        return Ok(None);
    };
    Ok(Some(SplitWords {
        fatbinary: moved_words(alloc, places.fatbin_file.as_str(), fatbinary)?,
        compiler,
        assembler,
    }))
}

// The stub file that cudafe++'s file includes, if a compile reads that one alone by its words.
fn stub_of(alloc: Global, files: &CommandFiles) -> Result<Option<Text>, AllocError>
    ensures { IfOk result (λ stub. stub ≡ spec.stub_of files.now.reads) }
{
    match files.reads.as_slice() {
        [source] => Ok(Some(Text::new(with_extension(alloc, source.as_str(), "stub.c")?))),
        _ => Ok(None),
    }
}

// Whether paths are this one alone.
fn is_only(path: &str, paths: &[String]) -> bool
    ensures { result ≡ spec.is_only path.now (map string_bytes paths.now) }
{
    match paths {
        [only] => path == only.as_str(),
        _ => false,
    }
}

// Whether the words of both halves of a compile name its files and the assembler text, and no others.
fn has_records(
    alloc: Global,
    text_file: &str,
    files: &CommandFiles,
    split: &Split,
) -> Result<bool, AllocError>
    ensures { IfOk result (λ has. has ≡ spec.has_records text_file.now files.now split.now) }
{
    let compiler = files_of(alloc, &split.compiler)?;
    let assembler = files_of(alloc, &split.assembler)?;
    Ok(
        compiler.reads == files.reads
            && is_only(text_file, compiler.writes.as_slice())
            && is_only(text_file, assembler.reads.as_slice())
            && assembler.writes == files.writes,
    )
}

// A split, if its halves have the records that they should.
fn checked(
    alloc: Global,
    text_file: &str,
    files: &CommandFiles,
    split: Split,
) -> Result<Option<Split>, AllocError>
    ensures { IfOk result (λ checked. checked ≡ spec.checked text_file.now files.now split) }
{
    if has_records(alloc, text_file, files, &split)? {
        Ok(Some(split))
    } else {
        Ok(None)
    }
}

// A split, given its words, and the files that the compiler reads beside its own.
fn cut(
    alloc: Global,
    fatbinary: &NvccGeneratedSubcommand,
    compile: &NvccGeneratedSubcommand,
    words: &SplitWords,
    read: Text,
    stub: Text,
) -> Result<Split, AllocError>
    ensures { IfOk result (λ split. split ≡ spec.cut fatbinary.now compile.now words.now read stub) }
{
    Ok(Split {
        is_linked: has_word(fatbinary.args.as_slice(), "--device-c"),
        fatbinary: with_words(alloc, fatbinary, &words.fatbinary)?,
        compiler: with_words(alloc, compile, &words.compiler)?,
        assembler: with_words(alloc, compile, &words.assembler)?,
        read,
        stub,
    })
}

// A split, given its words, and fatbinary's word for the file that the compiler reads.
fn split_with(
    alloc: Global,
    text_file: &str,
    fatbinary: &NvccGeneratedSubcommand,
    compile: &NvccGeneratedSubcommand,
    words: &SplitWords,
    file: &str,
) -> Result<Option<Split>, AllocError>
    ensures { IfOk result (λ split. split ≡ spec.split_with text_file.now fatbinary.now compile.now words.now file.now) }
{
    let files = files_of(alloc, compile)?;
    let Some(stub) = stub_of(alloc, &files)? else {
        return Ok(None);
    };
    let read = Text::new(join(alloc, fatbinary.cwd.as_str(), file)?);
    let split = cut(alloc, fatbinary, compile, words, read, stub)?;
    checked(alloc, text_file, &files, split)
}

/// Cuts a plan's last two commands, `fatbinary` and the host compile `compile`, into three. `None` if the compile isn't one whose halves
/// are known to make its object ([`late_words`]), or a command's words wouldn't name the files that it is to touch.
///
/// The compiler's half reads a placeholder ([`placeholder`](crate::placeholder)) where it would read fatbinary's file. The assembler's
/// includes what fatbinary wrote meanwhile ([`assembler_text`](crate::assembler_text)).
pub fn split_compile(
    alloc: Global,
    places: &Places,
    fatbinary: &NvccGeneratedSubcommand,
    compile: &NvccGeneratedSubcommand,
) -> Result<Option<Split>, AllocError>
    ensures { IfOk result (λ split. split ≡ spec.split_of places.now fatbinary.now compile.now) }
{
    let Some(file) = embedded(fatbinary.args.as_slice()) else {
        return Ok(None);
    };
    let text_file = places.text_file.as_str();
    match words_of(
        alloc,
        places,
        fatbinary.args.as_slice(),
        compile.args.as_slice(),
    )? {
        None => Ok(None),
        Some(words) => split_with(alloc, text_file, fatbinary, compile, &words, file),
    }
}

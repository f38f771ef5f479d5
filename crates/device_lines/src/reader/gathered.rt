//! What the reader of device tools' lines gathers, item by item.

ghost use Rattle.std.specs.Prelude.{◌≡◌, IfOk, OnOk, fold};
ghost use Rattle.compilers.specs.Items.{items};
ghost use Rattle.compilers.specs.Views.{item_viewed};
ghost use Rattle.compilers.specs.Compiler.{accepted, reading_of};

use super::named_files::NamedFiles;
use crate::options::ArgData;
use compilers::arguments::{CompilerArguments, ParsedArguments};
use compilers::items::{ArgParseError, Line};
use compilers::table::SearchableArgInfo;
use compilers::views::{ArgumentView, view_item};
use std::alloc::{AllocError, Global};
use texts::language::Language;
use texts::text::Text;
use texts::words::Words;

/// The words and files of the items so far.
#[derive(Drop)]
pub struct Gathered<'a> {
    pub common: Words,
    pub unhashed: Words,
    pub files: NamedFiles<'a>,
    /// Whether the last item was an unknown flag. A raw word after it may be its value.
    pub after_unknown: bool,
}

impl<'a> Gathered<'a> {
    ghost use Rattle.device_lines.specs.Gathered.{nothing_gathered, with_item, reading_of_gathered};

    /// Nothing yet, with room for `count` common words.
    pub fn with_capacity(alloc: Global, count: usize) -> Result<Gathered<'a>, AllocError>
        ensures { IfOk result (λ g. g ≡ nothing_gathered) }
    {
        Ok(Gathered {
            common: Words::with_capacity(alloc, count)?,
            unhashed: Words::new(alloc),
            files: NamedFiles::new(alloc),
            after_unknown: false,
        })
    }

    /// Takes all items of a line. On an error some of them may be there.
    pub fn take_line<S: SearchableArgInfo<ArgData>>(
        &mut self,
        alloc: Global,
        cwd: &str,
        line: Line<'a>,
        table: &S,
    ) -> Result<(), AllocError>
        ensures { OnOk result (self.new ≡ fold (with_item cwd.now) self.old (items (S.chosen table.now) line.entry)) }
    {
        let mut line = line;
        while let Some(word) = line.next_word() {
            let item = view_item(table.search(word), word, &mut line);
            self.take(alloc, cwd, item)?;
        }
        Ok(())
    }

    // Takes the next item. On an error a part of it may be there.
    fn take(
        &mut self,
        alloc: Global,
        cwd: &str,
        item: Result<ArgumentView<'a, ArgData>, ArgParseError>,
    ) -> Result<(), AllocError>
        ensures { OnOk result (self.new ≡ with_item cwd.now self.old (item_viewed item.entry)) }
    {
        let after_unknown = self.after_unknown;
        self.after_unknown = false;
        let Ok(item) = item else {
            return Ok(());
        };
        self.files.take(alloc, cwd, item)?;
        let kind = match item {
            ArgumentView::Raw(word) if after_unknown => return self.common.push_str(alloc, word),
            ArgumentView::Raw(_) => return Ok(()),
            ArgumentView::UnknownFlag(word) => {
                self.after_unknown = true;
                return self.common.push_str(alloc, word);
            }
            ArgumentView::Flag(_, kind) | ArgumentView::WithValue(_, kind, _, _) => kind,
        };
        match kind {
            ArgData::Output => Ok(()),
            ArgData::PassThrough | ArgData::GenModuleIdFileFlag | ArgData::ModuleIdFileName => {
                item.write(alloc, &mut self.common)
            }
            ArgData::UnhashedFlag | ArgData::UnhashedPassThrough | ArgData::UnhashedOutput => {
                item.write(alloc, &mut self.unhashed)
            }
        }
    }

    /// The answer of a reader that has taken all items, with this input.
    pub fn into_answer(
        self,
        alloc: Global,
        cwd: &str,
        language: Language,
        input: &str,
    ) -> Result<CompilerArguments<ParsedArguments>, AllocError>
        ensures { IfOk result (λ r. reading_of r ≡ accepted (reading_of_gathered cwd.now language input.now self.entry)) }
    {
        let mut files = self.files;
        files.record_module_id(alloc, cwd)?;
        let first = files.module_id_file(alloc, cwd)?;
        let second = first.try_clone(alloc)?;
        let input = Text::copy_of(alloc, input)?;
        let mut arguments = ParsedArguments::of(alloc, input, language, files.outputs);
        arguments.common_args = self.common;
        arguments.unhashed_args = self.unhashed;
        arguments.extra_dist_files = first;
        arguments.extra_hash_files = second;
        Ok(CompilerArguments::Ok(arguments))
    }
}

//! The files that the items of a device tool's line name.

ghost use Rattle.std.specs.Prelude.{◌≡◌, IfOk, OnOk, fold};
ghost use Rattle.compilers.specs.Items.{items};
ghost use Rattle.compilers.specs.Views.{item_seen};
ghost use Rattle.compilers.specs.Outputs.{with_entry};
ghost use Rattle.texts.specs.Path.{joined};
ghost use Rattle.device_lines.specs.Reading as spec;

use crate::options::ArgData;
use compilers::items::Line;
use compilers::outputs::{ArtifactDescriptor, OBJ, Outputs};
use compilers::table::SearchableArgInfo;
use compilers::views::{ArgumentView, view_item};
use std::alloc::{AllocError, Global};
use std::marker::Model;
use texts::text::{Text, join};
use texts::words::Words;

/// A path as a line gives it, borrowed from one of the line's words.
#[derive(Drop)]
pub struct GivenPath<'a> {
    text: &'a str,
}

impl<'a> Model for GivenPath<'a> {
    ghost use Rattle.std.specs.Prelude.{List, ℕ};

    ghost Value = { List ℕ };

    ghost view = { λ p. p.text.now };
}

/// The files of the items so far.
#[derive(Drop)]
pub struct NamedFiles<'a> {
    pub outputs: Outputs,
    /// The last path of a module id file, as the line gives it.
    pub module_id: Option<GivenPath<'a>>,
    /// Whether the tool writes the module id file.
    pub makes_module_id: bool,
}

impl<'a> NamedFiles<'a> {
    ghost use Rattle.device_lines.specs.Gathered.{no_files, with_files_of};

    /// None yet.
    pub fn new(alloc: Global) -> NamedFiles<'a>
        ensures { result ≡ no_files }
    {
        NamedFiles {
            outputs: Outputs::new(alloc),
            module_id: None,
            makes_module_id: false,
        }
    }

    // Records the file that an option names, joined to the working directory, and whether it is optional.
    fn record(
        &mut self,
        alloc: Global,
        key: &'static str,
        cwd: &str,
        path: &str,
        optional: bool,
    ) -> Result<(), AllocError>
        ensures { OnOk result (self.new ≡ record self.old {
          outputs = with_entry self.old.outputs (key.now, spec.made_at optional (joined cwd.now path.now));
        }) }
    {
        let path = Text::new(join(alloc, cwd, path)?);
        let made = ArtifactDescriptor { path, optional };
        self.outputs.insert(key, made)
    }

    /// Takes the next item, if it is an option of the table; another names no file.
    pub fn take(
        &mut self,
        alloc: Global,
        cwd: &str,
        item: ArgumentView<'a, ArgData>,
    ) -> Result<(), AllocError>
        ensures { OnOk result (self.new ≡ with_files_of cwd.now self.old (item_seen item.entry)) }
    {
        let (kind, text, value) = match item {
            ArgumentView::Raw(_) | ArgumentView::UnknownFlag(_) => return Ok(()),
            ArgumentView::Flag(text, kind) => (kind, text, ""),
            ArgumentView::WithValue(text, kind, value, _) => (kind, text, value),
        };
        match kind {
            ArgData::Output => self.record(alloc, OBJ, cwd, value, false),
            ArgData::UnhashedOutput => self.record(alloc, text, cwd, value, false),
            ArgData::GenModuleIdFileFlag => {
                self.makes_module_id = true;
                Ok(())
            }
            ArgData::ModuleIdFileName => {
                self.module_id = Some(GivenPath { text: value });
                Ok(())
            }
            ArgData::PassThrough | ArgData::UnhashedFlag | ArgData::UnhashedPassThrough => Ok(()),
        }
    }

    /// Takes all items of a line. On an error some of them may be there.
    pub fn take_line<S: SearchableArgInfo<ArgData>>(
        &mut self,
        alloc: Global,
        cwd: &str,
        line: Line<'a>,
        table: &S,
    ) -> Result<(), AllocError>
        ensures { OnOk result (self.new ≡ fold (with_files_of cwd.now) self.old (items (S.chosen table.now) line.entry)) }
    {
        let mut line = line;
        while let Some(word) = line.next_word() {
            // An item that can't be read names no file.
            if let Ok(item) = view_item(table.search(word), word, &mut line) {
                self.take(alloc, cwd, item)?;
            }
        }
        Ok(())
    }

    /// Records the module id file as an output, if the tool writes it.
    pub fn record_module_id(&mut self, alloc: Global, cwd: &str) -> Result<(), AllocError>
        ensures { OnOk result (self.new ≡ record self.old {
          outputs = fold with_entry self.old.outputs (spec.module_id_output cwd.now self.old.makes_module_id self.old.module_id);
        }) }
    {
        match &self.module_id {
            Some(path) if self.makes_module_id => {
                let path = path.text;
                self.record(alloc, "--module_id_file_name", cwd, path, true)
            }
            _ => Ok(()),
        }
    }

    /// The module id file, if the tool reads it.
    pub fn module_id_file(&self, alloc: Global, cwd: &str) -> Result<Words, AllocError>
        ensures { IfOk result (λ w. w ≡ spec.module_id_file cwd.now self.now.makes_module_id self.now.module_id) }
    {
        match &self.module_id {
            Some(path) if !self.makes_module_id => {
                let mut files = Words::with_capacity(alloc, 1)?;
                files.push(join(alloc, cwd, path.text)?)?;
                Ok(files)
            }
            _ => Ok(Words::new(alloc)),
        }
    }
}

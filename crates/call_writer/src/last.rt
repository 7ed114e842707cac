//! The last file and module of the lines, with their spelling. Adjacent lines are mostly of one
//! file, and their names of one module, so these are seldom spelled again.

ghost use Rattle.std.specs.Prelude.{◌≡◌, IsTrue, OnOk, slice_get};
ghost use Rattle.std.specs.String.{string_bytes};
ghost use Rattle.call_writer.specs.Lines.{after_file, after_module, file_name};

use crate::json::push_json_string;
use import_rules::Program;
use std::alloc::{AllocError, Global};

/// The module of the last name, with the text in a line before a name of that module.
#[derive(Drop)]
pub(crate) struct LastModule<'a> {
    /// Whether a module was spelled.
    is_spelled: bool,
    module: &'a str,
    /// `,"module":"user","name":"`
    pub(crate) text: String,
    ghost spelled: { IsTrue is_spelled → string_bytes text ≡ after_module module.now },
}

impl<'a> LastModule<'a> {
    /// Before the first name. It takes no memory.
    pub(crate) fn none(alloc: Global) -> LastModule<'a> {
        LastModule {
            is_spelled: false,
            module: "",
            text: String::new(alloc),
        }
    }

    /// Makes this the last module, and spells it unless it was that before.
    pub(crate) fn take(&mut self, module: &'a str) -> Result<(), AllocError>
        ensures { OnOk result (string_bytes self.new.text ≡ after_module «module».now) }
    {
        if self.is_spelled && self.module == module {
            return Ok(());
        }
        self.is_spelled = false;
        self.text.clear();
        self.text.push_str(",\"module\":")?;
        push_json_string(&mut self.text, module)?;
        self.text.push_str(",\"name\":\"")?;
        self.module = module;
        self.is_spelled = true;
        Ok(())
    }
}

/// The name of the file at the index, or nothing if there is none.
fn file_name(program: &Program, file: u32) -> &str
    ensures { result.now ≡ file_name (slice_get program.now.loaded.texts file) }
{
    match program.loaded().texts.get(file as usize) {
        Some(text) => text.0.as_str(),
        None => "",
    }
}

/// The last file of a program, with the text in a line before a position in that file.
#[derive(Drop)]
pub(crate) struct LastFile<'a> {
    pub(crate) program: &'a Program,
    /// Whether a file was spelled.
    is_spelled: bool,
    /// Its index among the files.
    file: u32,
    /// `,"file":"f.pl","line":`
    pub(crate) text: String,
    ghost spelled: { IsTrue is_spelled → string_bytes text ≡ after_file (file_name (slice_get program.now.loaded.texts file)) },
}

impl<'a> LastFile<'a> {
    /// Before the first position. It takes no memory.
    pub(crate) fn none(alloc: Global, program: &'a Program) -> LastFile<'a>
        ensures { result.program.now ≡ program.now }
    {
        LastFile {
            program,
            is_spelled: false,
            file: 0,
            text: String::new(alloc),
        }
    }

    /// Makes the file at the index the last one, and spells its name unless it was that before.
    pub(crate) fn take(&mut self, file: u32) -> Result<(), AllocError>
        ensures text { OnOk result (string_bytes self.new.text ≡ after_file (file_name (slice_get self.old.program.now.loaded.texts file))) }
        ensures program { OnOk result (self.new.program.now ≡ self.old.program.now) }
    {
        if self.is_spelled && self.file == file {
            return Ok(());
        }
        self.is_spelled = false;
        self.text.clear();
        self.text.push_str(",\"file\":")?;
        push_json_string(&mut self.text, file_name(self.program, file))?;
        self.text.push_str(",\"line\":")?;
        self.file = file;
        self.is_spelled = true;
        Ok(())
    }
}

/// The last file and module in lines of calls.
#[derive(Drop)]
pub(crate) struct Last<'a, 'b> {
    pub(crate) file: LastFile<'a>,
    pub(crate) module: LastModule<'b>,
}

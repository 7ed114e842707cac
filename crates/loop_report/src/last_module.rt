//! The module of the last name, with its spelling.

ghost use Rattle.std.specs.Prelude.{◌≡◌, ℕ, List, Some, OnOk};
ghost use Rattle.std.specs.Borrow.{Bor};
ghost use Rattle.std.specs.String.{string_bytes};
ghost use Rattle.loop_report.specs.Names.{module_text};

use crate::spelled::push_atom;
use std::alloc::{AllocError, Global};

/// The module of the last name of a line, and the text before a name of that module. Adjacent names
/// are mostly of one module, so it is seldom spelled again.
#[derive(Drop)]
pub(crate) struct LastModule<'a> {
    /// None before the first name.
    module: Option<&'a str>,
    /// A space, the module as it is spelled, and a colon.
    pub(crate) text: String,
    ghost spelled: { (last : Bor (List ℕ)) → «module» ≡ Some last → string_bytes text ≡ module_text last.now },
}

impl<'a> LastModule<'a> {
    /// Before the first name. It takes no memory.
    pub(crate) fn none(alloc: Global) -> LastModule<'a> {
        LastModule {
            module: None,
            text: String::new(alloc),
        }
    }

    /// Makes this the last module, and spells it unless it was that before.
    pub(crate) fn take(&mut self, module: &'a str) -> Result<(), AllocError>
        ensures { OnOk result (string_bytes self.new.text ≡ module_text «module».now) }
    {
        if let Some(last) = self.module {
            if last == module {
                return Ok(());
            }
        }
        self.module = None;
        self.text.clear();
        self.text.push_str(" ")?;
        push_atom(&mut self.text, module)?;
        self.text.push_str(":")?;
        self.module = Some(module);
        Ok(())
    }
}

//! Lines that stand beside those of a trace.

use std::alloc::{AllocError, Global};
use std::marker::Model;

/// Remarks: each is a line that begins with `#` and a space, as no line of a trace does.
#[derive(Drop)]
pub struct Remarks {
    text: String,
    /// Whether there was no memory for one that was to be added. `append` says so.
    is_short: bool,
    alloc: Global,
}

impl Model for Remarks {
    ghost use Rattle.std.specs.Prelude.{ℕ, List, string_bytes};
    ghost use Rattle.cf_explain.specs.Remarks.{AreRemarks};

    ghost Value = { List ℕ };

    ghost view = { λ r. string_bytes r.text };

    ghost invariant = { λ r. AreRemarks (string_bytes r.text) };
}

impl Remarks {
    ghost use Rattle.std.specs.Prelude.{◌≡◌, ◌++◌, [], IfOk, OnOk};
    ghost use Rattle.cf_explain.specs.Remarks.{AreRemarks, IsOneLine, heading, remark};

    /// No remark. It takes no memory.
    pub(crate) fn new(alloc: Global) -> Remarks
        ensures { result ≡ [] }
    {
        Remarks {
            text: String::new(alloc),
            is_short: false,
            alloc,
        }
    }

    /// The remark that stands above those of an event: its number and its line.
    pub(crate) fn headed(alloc: Global, number: usize, line: &str) -> Result<Remarks, AllocError>
        ensures { IfOk result (λ r. IsOneLine line.now → r ≡ remark (heading number line.now)) }
    {
        let mut remarks = Remarks::new(alloc);
        let text = format!(in alloc; "{number}: {line}")?;
        remarks.add_line(text.as_str())?;
        Ok(remarks)
    }

    /// Adds others behind these. An error if there is no memory, or was none for one of the others.
    pub(crate) fn append(&mut self, others: &Remarks) -> Result<(), AllocError>
        ensures { OnOk result (self.new ≡ self.old ++ others.now) }
    {
        if others.is_short {
            return Err(AllocError);
        }
        self.text.push_str(others.as_str())?;
        Ok(())
    }

    /// The lines. It takes no memory.
    pub fn as_str(&self) -> &str
        ensures text { result.now ≡ self.now }
        ensures remarks { AreRemarks self.now }
    {
        self.text.as_str()
    }

    /// Adds a text, if there was memory for it: each of its lines is a remark.
    pub(crate) fn add(&mut self, text: Result<String, AllocError>) {
        let Ok(text) = text else {
            self.is_short = true;
            return;
        };
        for line in text.as_str().split('\n') {
            if self.add_line(line).is_err() {
                self.is_short = true;
            }
        }
    }

    // Adds a line. If it has a line feed none is added.
    fn add_line(&mut self, line: &str) -> Result<(), AllocError>
        ensures { OnOk result (IsOneLine line.now → self.new ≡ self.old ++ remark line.now) }
    {
        if line.contains('\n') {
            return Ok(());
        }
        let remark = format!(in self.alloc; "# {line}\n")?;
        self.text.push_str(remark.as_str())?;
        Ok(())
    }
}

//! The texts that were read for a line, each once.

ghost use Rattle.std.specs.Prelude.{◌≡◌, IfErr, IfOk, IfSome, OnOk};
ghost use Rattle.iom_include.specs.Kept.{AreKept, IsLack};

use crate::fault::TextFault;
use crate::texts::Texts;
use std::alloc::{AllocError, Global};
use std::collections::BTreeMap;

/// Texts that were read, each by its name.
#[derive(Drop)]
pub struct KeptTexts {
    texts: BTreeMap<String, Vec<u8>>,
}

impl KeptTexts {
    ghost use Rattle.std.specs.Prelude.{◌≡◌, List, ℕ, None, Some, bytes_eq, OnOk, if◌then◌else◌};
    ghost use Rattle.std.specs.Option.{option_map};
    ghost use Rattle.iom_include.specs.Kept.{kept_of};

    /// None yet.
    pub fn new(alloc: Global) -> KeptTexts
        ensures { (name : List ℕ) → kept_of result name ≡ None }
    {
        KeptTexts {
            texts: BTreeMap::new(alloc),
        }
    }

    // The one of a name.
    fn of_name(&self, name: &str) -> Option<&[u8]>
        ensures { option_map (λ text. text.now) result ≡ kept_of self.now name.now }
    {
        match self.texts.get(name) {
            Some(text) => Some(text.as_slice()),
            None => None,
        }
    }

    // Keeps a text of a name.
    fn keep(&mut self, alloc: Global, name: &str, text: &[u8]) -> Result<(), AllocError>
        ensures { OnOk result ((other : List ℕ) → kept_of self.new other ≡ (if bytes_eq name.now other then Some text.now else kept_of self.old other)) }
    {
        let name = String::from_str(alloc, name)?;
        let text = Vec::from_slice(alloc, text)?;
        self.texts.insert(name, text)?;
        Ok(())
    }
}

/// The text of a name: the one that is kept; if there is none, the one that is read now, which is kept.
pub fn text_at<T: Texts>(
    texts: &T,
    kept: &mut KeptTexts,
    alloc: Global,
    name: &str,
) -> Result<Vec<u8>, TextFault>
    requires { AreKept (T.known texts.now) (T.gives texts.now) kept.old }
    ensures given { IfOk result (λ text. T.gives texts.now name.now text.items) }
    ensures lacking { IfErr result (IsLack (T.lacks texts.now) name.now) }
    ensures known { IfSome (T.known texts.now) (λ known. IfOk result (λ text. text.items ≡ known name.now)) }
    ensures kept { OnOk result (AreKept (T.known texts.now) (T.gives texts.now) kept.new) }
{
    if let Some(text) = kept.of_name(name) {
        return Ok(Vec::from_slice(alloc, text)?);
    }
    let text = texts.text(alloc, name)?;
    kept.keep(alloc, name, text.as_slice())?;
    Ok(text)
}

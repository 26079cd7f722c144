// Lines of courses, word by word.
use sm_base::{Kind, Label, Path, Path1, PolicyKind, SnapName};
use std::alloc::Global;
use std::test::Fail;

/// A line of a course is not written as it has to be.
#[derive(Debug, Drop)]
pub(crate) struct BadLine;

/// What is left of a line, its words with a space between them.
#[derive(Clone, Copy, Debug)]
pub(crate) struct Words<'a> {
    pub(crate) rest: &'a str,
}

impl<'a> Words<'a> {
    pub(crate) fn word(&mut self) -> Result<&'a str, BadLine> {
        if self.rest.is_empty() {
            return Err(BadLine);
        }
        match self.rest.split_once(' ') {
            Some((word, rest)) => {
                self.rest = rest;
                Ok(word)
            }
            None => {
                let word = self.rest;
                self.rest = "";
                Ok(word)
            }
        }
    }

    pub(crate) fn number(&mut self) -> Result<u64, Fail> {
        Ok(self.word()?.parse::<u64>()?)
    }

    pub(crate) fn small(&mut self) -> Result<u32, Fail> {
        Ok(self.word()?.parse::<u32>()?)
    }

    pub(crate) fn byte(&mut self) -> Result<u8, Fail> {
        Ok(self.word()?.parse::<u8>()?)
    }

    pub(crate) fn path(&mut self, alloc: Global) -> Result<Path, Fail> {
        Ok(Path::read(alloc, self.word()?.as_bytes())?)
    }

    pub(crate) fn part(&mut self, alloc: Global) -> Result<Path1, Fail> {
        Ok(Path1::read(alloc, self.word()?.as_bytes())?)
    }

    pub(crate) fn name(&mut self, alloc: Global) -> Result<SnapName, Fail> {
        Ok(SnapName::read(alloc, self.word()?.as_bytes())?)
    }

    pub(crate) fn label(&mut self, alloc: Global) -> Result<Label, Fail> {
        Ok(Label::read(alloc, self.word()?.as_bytes())?)
    }

    /// A name, or none for `-`.
    pub(crate) fn name_or_none(&mut self, alloc: Global) -> Result<Option<SnapName>, Fail> {
        let word = self.word()?;
        if word == "-" {
            return Ok(None);
        }
        Ok(Some(SnapName::read(alloc, word.as_bytes())?))
    }

    /// A label, or none for `-`.
    pub(crate) fn label_or_none(&mut self, alloc: Global) -> Result<Option<Label>, Fail> {
        let word = self.word()?;
        if word == "-" {
            return Ok(None);
        }
        Ok(Some(Label::read(alloc, word.as_bytes())?))
    }

    pub(crate) fn kind(&mut self) -> Result<Kind, BadLine> {
        match self.word()? {
            "rw" => Ok(Kind::Rw),
            "dp" => Ok(Kind::Dp),
            _ => Err(BadLine),
        }
    }

    pub(crate) fn policy_kind(&mut self) -> Result<PolicyKind, BadLine> {
        match self.word()? {
            "mirror" => Ok(PolicyKind::AsyncMirror),
            "vault" => Ok(PolicyKind::Vault),
            _ => Err(BadLine),
        }
    }

    /// Whether a rule preserves what it keeps.
    pub(crate) fn preserves(&mut self) -> Result<bool, BadLine> {
        match self.word()? {
            "preserve" => Ok(true),
            "keep" => Ok(false),
            _ => Err(BadLine),
        }
    }
}

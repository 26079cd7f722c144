// Lines of worlds, word by word.
use sm_base::{Ident, Kind, Label, Path, Path1, PolicyKind, Reason, SnapName, TransferKind};
use std::alloc::Global;
use std::test::Fail;

/// A line is not written as it has to be.
#[derive(Debug, Drop)]
pub(crate) struct BadLine;

/// What is left of a line, its words with a space between them.
#[derive(Clone, Copy, Debug)]
pub(crate) struct Words<'a> {
    pub(crate) rest: &'a str,
}

impl<'a> Words<'a> {
    pub(crate) fn word(&mut self) -> Result<&'a str, BadLine> {
        if self.rest.is_empty() {
            return Err(BadLine);
        }
        match self.rest.split_once(' ') {
            Some((word, rest)) => {
                self.rest = rest;
                Ok(word)
            }
            None => {
                let word = self.rest;
                self.rest = "";
                Ok(word)
            }
        }
    }

    pub(crate) fn number(&mut self) -> Result<u64, Fail> {
        Ok(self.word()?.parse::<u64>()?)
    }

    pub(crate) fn small(&mut self) -> Result<u32, Fail> {
        Ok(self.word()?.parse::<u32>()?)
    }

    pub(crate) fn path(&mut self, alloc: Global) -> Result<Path, Fail> {
        Ok(Path::read(alloc, self.word()?.as_bytes())?)
    }

    pub(crate) fn part(&mut self, alloc: Global) -> Result<Path1, Fail> {
        Ok(Path1::read(alloc, self.word()?.as_bytes())?)
    }

    pub(crate) fn name(&mut self, alloc: Global) -> Result<SnapName, Fail> {
        Ok(SnapName::read(alloc, self.word()?.as_bytes())?)
    }

    pub(crate) fn label(&mut self, alloc: Global) -> Result<Label, Fail> {
        Ok(Label::read(alloc, self.word()?.as_bytes())?)
    }

    /// A label, or none for `-`.
    pub(crate) fn label_or_none(&mut self, alloc: Global) -> Result<Option<Label>, Fail> {
        let word = self.word()?;
        if word == "-" {
            return Ok(None);
        }
        Ok(Some(Label::read(alloc, word.as_bytes())?))
    }

    /// An identity, as `0.3`.
    pub(crate) fn ident(&mut self) -> Result<Ident, Fail> {
        ident_of(self.word()?)
    }

    /// An identity, or none for `-`.
    pub(crate) fn ident_or_none(&mut self) -> Result<Option<Ident>, Fail> {
        let word = self.word()?;
        if word == "-" {
            return Ok(None);
        }
        Ok(Some(ident_of(word)?))
    }

    /// The numbers up to the line's end or a bar.
    pub(crate) fn numbers(&mut self, alloc: Global) -> Result<Vec<u32>, Fail> {
        let mut numbers = Vec::new(alloc);
        for _ in 0..100u32 {
            if self.rest.is_empty() {
                break;
            }
            let word = self.word()?;
            if word == "|" {
                break;
            }
            numbers.push(word.parse::<u32>()?)?;
        }
        Ok(numbers)
    }

    /// The identities up to the line's end or a bar.
    pub(crate) fn idents(&mut self, alloc: Global) -> Result<Vec<Ident>, Fail> {
        let mut idents = Vec::new(alloc);
        for _ in 0..100u32 {
            if self.rest.is_empty() {
                break;
            }
            let word = self.word()?;
            if word == "|" {
                break;
            }
            idents.push(ident_of(word)?)?;
        }
        Ok(idents)
    }

    pub(crate) fn kind(&mut self) -> Result<Kind, BadLine> {
        match self.word()? {
            "rw" => Ok(Kind::Rw),
            "dp" => Ok(Kind::Dp),
            _ => Err(BadLine),
        }
    }

    pub(crate) fn policy_kind(&mut self) -> Result<PolicyKind, BadLine> {
        match self.word()? {
            "mirror" => Ok(PolicyKind::AsyncMirror),
            "vault" => Ok(PolicyKind::Vault),
            _ => Err(BadLine),
        }
    }

    pub(crate) fn transfer_kind(&mut self) -> Result<TransferKind, BadLine> {
        match self.word()? {
            "initialize" => Ok(TransferKind::Initialize),
            "update" => Ok(TransferKind::Update),
            "resync" => Ok(TransferKind::Resync),
            _ => Err(BadLine),
        }
    }

    /// Whether the next word is this one, or else `-`.
    pub(crate) fn mark(&mut self, mark: &str) -> Result<bool, BadLine> {
        let word = self.word()?;
        if word == mark {
            return Ok(true);
        }
        if word == "-" {
            return Ok(false);
        }
        Err(BadLine)
    }

    /// Why a transfer is stopped: it was aborted, or, for `-`, it runs.
    pub(crate) fn stopped(&mut self) -> Result<Option<Reason>, BadLine> {
        if self.mark("stopped")? {
            Ok(Some(Reason::Aborted))
        } else {
            Ok(None)
        }
    }
}

fn ident_of(word: &str) -> Result<Ident, Fail> {
    let Some((origin, seq)) = word.split_once('.') else {
        return Err(BadLine)?;
    };
    Ok(Ident {
        origin: origin.parse::<u32>()?,
        seq: seq.parse::<u64>()?,
    })
}

ghost use Rattle.std.specs.Prelude.{◌≡◌, ◌==◌, true, false, IfOk, IsErrOf, OnOk, position};
ghost use Rattle.std.specs.List.{list_all};
ghost use Rattle.std.specs.Str.{IsAscii};
ghost use Rattle.sm_base.specs.Name.{is_part, is_path, is_label, is_snapshot_name, name_byte, word_byte};
ghost use Rattle.sm_base.specs.declared.faults.NameFault.TheVariants.{BadName};

use crate::faults::{NameFault, NoMemory};
use std::alloc::Global;
use std::fmt;
use std::marker::Model;

/// One part of a path, or the name of a policy: 1 to 64 letters, digits and `_`.
#[derive(Debug, Drop)]
pub struct Path1 {
    text: String,
}

impl Model for Path1 {
    ghost use Rattle.std.specs.Prelude.{◌≡◌, true, List, ℕ, string_bytes};
    ghost use Rattle.sm_base.specs.Name.{is_part};

    ghost Value = { List ℕ };

    ghost view = { λ p. string_bytes p.text };

    ghost invariant = { λ p. is_part (string_bytes p.text) ≡ true };
}

impl Path1 {
    /// Reads a name. `BadName` comes exactly outside the grammar.
    #[tactic(auto, using(crate::proofs::NameLemmas::part_is_ascii))]
    pub fn read(alloc: Global, text: &[u8]) -> Result<Path1, NameFault>
        ensures ok { IfOk result (λ name. name ≡ text.now) }
        ensures grammar { OnOk result (is_part text.now ≡ true) }
        ensures bad { IsErrOf result NameFault.BadName → is_part text.now ≡ false }
    {
        if !part_of(text) {
            return Err(NameFault::BadName);
        }
        Ok(Path1 {
            text: String::from_str(alloc, as_text(text))?,
        })
    }

    /// The text that was read.
    pub fn text(&self) -> &[u8]
        ensures text { result.now ≡ self.now }
        ensures grammar { is_part self.now ≡ true }
    {
        self.text.as_bytes()
    }

    /// An equal name.
    pub fn copy(&self, alloc: Global) -> Result<Path1, NoMemory>
        ensures { IfOk result (λ name. name ≡ self.now) }
    {
        Ok(Path1 {
            text: String::from_str(alloc, self.text.as_str())?,
        })
    }
}

impl fmt::Display for Path1 {
    ghost use Rattle.std.specs.Prelude.{Some};

    ghost output = { λ p. Some p };

    fn fmt<W: fmt::Write>(&self, f: &mut fmt::Formatter<W>) -> fmt::Result {
        f.write_str(self.text.as_str())
    }
}

/// A volume's path: two parts with a `:` between them.
#[derive(Debug, Drop)]
pub struct Path {
    text: String,
}

impl Model for Path {
    ghost use Rattle.std.specs.Prelude.{◌≡◌, true, List, ℕ, string_bytes};
    ghost use Rattle.sm_base.specs.Name.{is_path};

    ghost Value = { List ℕ };

    ghost view = { λ p. string_bytes p.text };

    ghost invariant = { λ p. is_path (string_bytes p.text) ≡ true };
}

impl Path {
    /// Reads a path. `BadName` comes exactly outside the grammar.
    #[tactic(auto, using(crate::proofs::NameLemmas::path_is_ascii))]
    pub fn read(alloc: Global, text: &[u8]) -> Result<Path, NameFault>
        ensures ok { IfOk result (λ path. path ≡ text.now) }
        ensures grammar { OnOk result (is_path text.now ≡ true) }
        ensures bad { IsErrOf result NameFault.BadName → is_path text.now ≡ false }
    {
        if !path_of(text) {
            return Err(NameFault::BadName);
        }
        Ok(Path {
            text: String::from_str(alloc, as_text(text))?,
        })
    }

    /// The text that was read.
    pub fn text(&self) -> &[u8]
        ensures text { result.now ≡ self.now }
        ensures grammar { is_path self.now ≡ true }
    {
        self.text.as_bytes()
    }

    /// An equal path.
    pub fn copy(&self, alloc: Global) -> Result<Path, NoMemory>
        ensures { IfOk result (λ path. path ≡ self.now) }
    {
        Ok(Path {
            text: String::from_str(alloc, self.text.as_str())?,
        })
    }
}

impl fmt::Display for Path {
    ghost use Rattle.std.specs.Prelude.{Some};

    ghost output = { λ p. Some p };

    fn fmt<W: fmt::Write>(&self, f: &mut fmt::Formatter<W>) -> fmt::Result {
        f.write_str(self.text.as_str())
    }
}

/// The label of a snapshot, which rules name: 1 to 31 letters, digits, `_`, `-` and `.`.
#[derive(Debug, Drop)]
pub struct Label {
    text: String,
}

impl Model for Label {
    ghost use Rattle.std.specs.Prelude.{◌≡◌, true, List, ℕ, string_bytes};
    ghost use Rattle.sm_base.specs.Name.{is_label};

    ghost Value = { List ℕ };

    ghost view = { λ l. string_bytes l.text };

    ghost invariant = { λ l. is_label (string_bytes l.text) ≡ true };
}

impl Label {
    /// Reads a label. `BadName` comes exactly outside the grammar.
    #[tactic(auto, using(crate::proofs::NameLemmas::label_is_ascii))]
    pub fn read(alloc: Global, text: &[u8]) -> Result<Label, NameFault>
        ensures ok { IfOk result (λ label. label ≡ text.now) }
        ensures grammar { OnOk result (is_label text.now ≡ true) }
        ensures bad { IsErrOf result NameFault.BadName → is_label text.now ≡ false }
    {
        if !label_of(text) {
            return Err(NameFault::BadName);
        }
        Ok(Label {
            text: String::from_str(alloc, as_text(text))?,
        })
    }

    /// The text that was read.
    pub fn text(&self) -> &[u8]
        ensures text { result.now ≡ self.now }
        ensures grammar { is_label self.now ≡ true }
    {
        self.text.as_bytes()
    }

    /// An equal label.
    pub fn copy(&self, alloc: Global) -> Result<Label, NoMemory>
        ensures { IfOk result (λ label. label ≡ self.now) }
    {
        Ok(Label {
            text: String::from_str(alloc, self.text.as_str())?,
        })
    }
}

impl fmt::Display for Label {
    ghost use Rattle.std.specs.Prelude.{Some};

    ghost output = { λ l. Some l };

    fn fmt<W: fmt::Write>(&self, f: &mut fmt::Formatter<W>) -> fmt::Result {
        f.write_str(self.text.as_str())
    }
}

/// The name of a snapshot: 1 to 64 letters, digits, `_`, `-` and `.`.
#[derive(Debug, Drop)]
pub struct SnapName {
    text: String,
}

impl Model for SnapName {
    ghost use Rattle.std.specs.Prelude.{◌≡◌, true, List, ℕ, string_bytes};
    ghost use Rattle.sm_base.specs.Name.{is_snapshot_name};

    ghost Value = { List ℕ };

    ghost view = { λ n. string_bytes n.text };

    ghost invariant = { λ n. is_snapshot_name (string_bytes n.text) ≡ true };
}

impl SnapName {
    /// Reads a snapshot's name. `BadName` comes exactly outside the grammar.
    #[tactic(auto, using(crate::proofs::NameLemmas::snapshot_name_is_ascii))]
    pub fn read(alloc: Global, text: &[u8]) -> Result<SnapName, NameFault>
        ensures ok { IfOk result (λ name. name ≡ text.now) }
        ensures grammar { OnOk result (is_snapshot_name text.now ≡ true) }
        ensures bad { IsErrOf result NameFault.BadName → is_snapshot_name text.now ≡ false }
    {
        if !snapshot_name_of(text) {
            return Err(NameFault::BadName);
        }
        Ok(SnapName {
            text: String::from_str(alloc, as_text(text))?,
        })
    }

    /// The text that was read.
    pub fn text(&self) -> &[u8]
        ensures text { result.now ≡ self.now }
        ensures grammar { is_snapshot_name self.now ≡ true }
    {
        self.text.as_bytes()
    }

    /// An equal name.
    pub fn copy(&self, alloc: Global) -> Result<SnapName, NoMemory>
        ensures { IfOk result (λ name. name ≡ self.now) }
    {
        Ok(SnapName {
            text: String::from_str(alloc, self.text.as_str())?,
        })
    }
}

impl fmt::Display for SnapName {
    ghost use Rattle.std.specs.Prelude.{Some};

    ghost output = { λ n. Some n };

    fn fmt<W: fmt::Write>(&self, f: &mut fmt::Formatter<W>) -> fmt::Result {
        f.write_str(self.text.as_str())
    }
}

/// ASCII bytes as text.
fn as_text(bytes: &[u8]) -> &str
    requires { IsAscii bytes.now }
    ensures { result.now ≡ bytes.now }
{
    str::from_utf8(bytes).unwrap()
}

fn is_name_byte(b: u8) -> bool
    ensures { result ≡ name_byte b }
{
    b.is_ascii_uppercase() || b.is_ascii_lowercase() || b.is_ascii_digit() || b == b'_'
}

fn is_word_byte(b: u8) -> bool
    ensures { result ≡ word_byte b }
{
    is_name_byte(b) || b == b'-' || b == b'.'
}

fn all_name_bytes(text: &[u8]) -> bool
    ensures { result ≡ list_all name_byte text.now }
{
    text.iter().all(|b| is_name_byte(*b))
}

fn all_word_bytes(text: &[u8]) -> bool
    ensures { result ≡ list_all word_byte text.now }
{
    text.iter().all(|b| is_word_byte(*b))
}

fn part_of(text: &[u8]) -> bool
    ensures { result ≡ is_part text.now }
{
    !text.is_empty() && text.len() <= 64 && all_name_bytes(text)
}

fn label_of(text: &[u8]) -> bool
    ensures { result ≡ is_label text.now }
{
    !text.is_empty() && text.len() <= 31 && all_word_bytes(text)
}

fn snapshot_name_of(text: &[u8]) -> bool
    ensures { result ≡ is_snapshot_name text.now }
{
    !text.is_empty() && text.len() <= 64 && all_word_bytes(text)
}

fn colon(text: &[u8]) -> Option<usize>
    ensures { result ≡ position (λ b. b == 58) text.now }
{
    text.iter().position(|b| *b == b':')
}

fn path_of(text: &[u8]) -> bool
    ensures { result ≡ is_path text.now }
{
    match colon(text) {
        None => false,
        Some(at) => part_of(&text[..at]) && part_of(&text[at + 1..]),
    }
}

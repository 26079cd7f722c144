ghost use Rattle.std.specs.Prelude.{◌≡◌, IfOk, string_bytes};
ghost use Rattle.sm_report.specs.RefusalText.{refusal_word, refusal_fields, refusal_text, what_text};

use sm_base::{NoMemory, Refusal, What};
use std::alloc::Global;

fn word_of(refusal: &Refusal) -> &'static str
    ensures { result.now ≡ refusal_word refusal.now }
{
    match refusal {
        Refusal::NoVolume { .. } => "NoVolume",
        Refusal::NoRelation { .. } => "NoRelation",
        Refusal::NoPolicy { .. } => "NoPolicy",
        Refusal::NoSnapshot { .. } => "NoSnapshot",
        Refusal::NoDisk { .. } => "NoDisk",
        Refusal::AlreadyDestination { .. } => "AlreadyDestination",
        Refusal::Held { .. } => "Held",
        Refusal::HeldDownstream { .. } => "HeldDownstream",
        Refusal::KeepReached { .. } => "KeepReached",
        Refusal::Full { .. } => "Full",
        Refusal::DiskSmall { .. } => "DiskSmall",
        Refusal::ClockBack { .. } => "ClockBack",
        Refusal::Down { .. } => "Down",
        Refusal::DiskFault { .. } => "DiskFault",
        Refusal::NameTaken => "NameTaken",
        Refusal::ReadOnly => "ReadOnly",
        Refusal::BadBlock => "BadBlock",
        Refusal::NoSpace => "NoSpace",
        Refusal::SnapFull => "SnapFull",
        Refusal::DiskTaken => "DiskTaken",
        Refusal::SizeMismatch => "SizeMismatch",
        Refusal::Cycle => "Cycle",
        Refusal::Uninitialized => "Uninitialized",
        Refusal::Initialized => "Initialized",
        Refusal::Writable => "Writable",
        Refusal::NotBroken => "NotBroken",
        Refusal::Quiesced => "Quiesced",
        Refusal::Transferring => "Transferring",
        Refusal::NoTransfer => "NoTransfer",
        Refusal::Active => "Active",
        Refusal::OtherLayout => "OtherLayout",
        Refusal::NoCommon => "NoCommon",
        Refusal::WrongRule => "WrongRule",
        Refusal::BadKeep => "BadKeep",
        Refusal::RuleTaken => "RuleTaken",
        Refusal::RulesFull => "RulesFull",
    }
}

fn what_word(what: What) -> &'static str
    ensures { result.now ≡ what_text what }
{
    match what {
        What::Volumes => "volumes",
        What::Policies => "policies",
        What::Relations => "relationships",
        What::Transfers => "transfers",
    }
}

/// The fields behind a refusal's word, each with a space before it.
fn fields_of(alloc: Global, refusal: &Refusal) -> Result<String, NoMemory>
    ensures { IfOk result (λ text. string_bytes text ≡ refusal_fields refusal.now) }
{
    match refusal {
        Refusal::NoVolume { path } => Ok(format!(in alloc; " path={path}")?),
        Refusal::NoRelation { path } => Ok(format!(in alloc; " path={path}")?),
        Refusal::NoPolicy { name } => Ok(format!(in alloc; " name={name}")?),
        Refusal::NoSnapshot { name } => Ok(format!(in alloc; " name={name}")?),
        Refusal::KeepReached { label } => Ok(format!(in alloc; " label={label}")?),
        Refusal::NoDisk { disk } => {
            let number = disk.0;
            Ok(format!(in alloc; " disk={number}")?)
        }
        Refusal::AlreadyDestination { relation } => {
            let number = relation.0;
            Ok(format!(in alloc; " relationship={number}")?)
        }
        Refusal::Held { relation } => {
            let number = relation.0;
            Ok(format!(in alloc; " relationship={number}")?)
        }
        Refusal::HeldDownstream { ident, relation } => {
            let number = relation.0;
            Ok(format!(in alloc; " id={ident} relationship={number}")?)
        }
        Refusal::Full { what } => {
            let word = what_word(*what);
            Ok(format!(in alloc; " what={word}")?)
        }
        Refusal::DiskSmall { need, len } => Ok(format!(in alloc; " need={need} len={len}")?),
        Refusal::ClockBack { now } => Ok(format!(in alloc; " now={now}")?),
        Refusal::Down { disk } => {
            let number = disk.0;
            Ok(format!(in alloc; " disk={number}")?)
        }
        Refusal::DiskFault { disk, faults } => {
            let number = disk.0;
            Ok(format!(in alloc; " disk={number} faults={faults}")?)
        }
        _ => Ok(String::new(alloc)),
    }
}

/// The text of a refusal, without its line end.
pub(crate) fn text_of_refusal(alloc: Global, refusal: &Refusal) -> Result<String, NoMemory>
    ensures { IfOk result (λ text. string_bytes text ≡ refusal_text refusal.now) }
{
    let word = word_of(refusal);
    let fields = fields_of(alloc, refusal)?;
    Ok(format!(in alloc; "refused {word}{fields}")?)
}

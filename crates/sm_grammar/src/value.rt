ghost use Rattle.std.specs.Prelude.{◌≡◌, IfOk, codes, nat_eq};
ghost use Rattle.std.specs.List.{starts_with};
ghost use Rattle.sm_grammar.specs.Fault.{Answers};
ghost use Rattle.sm_grammar.specs.Value.{a_path, a_label, a_snapshot, a_new_snapshot, a_number, a_time, a_volume_type, a_part, a_policy_type, a_truth, is_reserved, value_of};

use crate::fault::{LineFault, LineKind};
use crate::number::read_within;
use crate::table::Shape;
use crate::time::time_of;
use sm_base::{Kind, Label, NameFault, Path, Path1, PolicyKind, SnapName};
use std::alloc::Global;

/// The value of an option.
#[derive(Debug, Drop)]
pub enum Value {
    /// The option stands, and has no value.
    Flag,
    Path(Path),
    Label(Label),
    Snapshot(SnapName),
    Number(u32),
    Time(u64),
    VolumeType(Kind),
    Part(Path1),
    PolicyType(PolicyKind),
    Truth(bool),
}

fn read_path(alloc: Global, text: &[u8]) -> Result<Value, LineFault>
    ensures { Answers result (a_path text.now) }
{
    match Path::read(alloc, text) {
        Ok(path) => Ok(Value::Path(path)),
        Err(NameFault::BadName) => Err(LineFault::Bad(LineKind::BadName)),
        Err(NameFault::NoMemory) => Err(LineFault::NoMemory),
    }
}

fn read_label(alloc: Global, text: &[u8]) -> Result<Value, LineFault>
    ensures { Answers result (a_label text.now) }
{
    match Label::read(alloc, text) {
        Ok(label) => Ok(Value::Label(label)),
        Err(NameFault::BadName) => Err(LineFault::Bad(LineKind::BadName)),
        Err(NameFault::NoMemory) => Err(LineFault::NoMemory),
    }
}

fn read_snapshot(alloc: Global, text: &[u8]) -> Result<Value, LineFault>
    ensures { Answers result (a_snapshot text.now) }
{
    match SnapName::read(alloc, text) {
        Ok(name) => Ok(Value::Snapshot(name)),
        Err(NameFault::BadName) => Err(LineFault::Bad(LineKind::BadName)),
        Err(NameFault::NoMemory) => Err(LineFault::NoMemory),
    }
}

fn is_reserved(name: &[u8]) -> bool
    ensures { result ≡ is_reserved name.now }
{
    name.starts_with(b"snapmirror.")
}

fn read_new_snapshot(alloc: Global, text: &[u8]) -> Result<Value, LineFault>
    ensures { Answers result (a_new_snapshot text.now) }
{
    if is_reserved(text) {
        return Err(LineFault::Bad(LineKind::BadName));
    }
    read_snapshot(alloc, text)
}

fn read_number(low: u32, high: u32, text: &[u8]) -> Result<Value, LineFault>
    ensures { Answers result (a_number low high text.now) }
{
    match read_within(low, high, text) {
        Some(number) => Ok(Value::Number(number)),
        None => Err(LineFault::Bad(LineKind::BadNumber)),
    }
}

fn read_time(text: &[u8]) -> Result<Value, LineFault>
    ensures { Answers result (a_time text.now) }
{
    match time_of(text) {
        Some(time) => Ok(Value::Time(time)),
        None => Err(LineFault::Bad(LineKind::BadTime)),
    }
}

fn read_volume_type(text: &[u8]) -> Result<Value, LineFault>
    ensures { Answers result (a_volume_type text.now) }
{
    if text == b"rw".as_slice() {
        return Ok(Value::VolumeType(Kind::Rw));
    }
    if text == b"dp".as_slice() {
        return Ok(Value::VolumeType(Kind::Dp));
    }
    Err(LineFault::Bad(LineKind::BadChoice))
}

fn read_part(alloc: Global, text: &[u8]) -> Result<Value, LineFault>
    ensures { Answers result (a_part text.now) }
{
    match Path1::read(alloc, text) {
        Ok(name) => Ok(Value::Part(name)),
        Err(NameFault::BadName) => Err(LineFault::Bad(LineKind::BadName)),
        Err(NameFault::NoMemory) => Err(LineFault::NoMemory),
    }
}

/// The word `vault` is none yet: no vault's policy is opened.
fn read_policy_type(text: &[u8]) -> Result<Value, LineFault>
    ensures { Answers result (a_policy_type text.now) }
{
    if text == b"async-mirror".as_slice() {
        return Ok(Value::PolicyType(PolicyKind::AsyncMirror));
    }
    Err(LineFault::Bad(LineKind::BadChoice))
}

fn read_truth(text: &[u8]) -> Result<Value, LineFault>
    ensures { Answers result (a_truth text.now) }
{
    if text == b"true".as_slice() {
        return Ok(Value::Truth(true));
    }
    if text == b"false".as_slice() {
        return Ok(Value::Truth(false));
    }
    Err(LineFault::Bad(LineKind::BadChoice))
}

/// What a word stands for behind an option.
#[tactic(auto, unfolding(crate::specs::Value::value_of))]
pub fn read_value(alloc: Global, shape: Shape, text: &[u8]) -> Result<Value, LineFault>
    ensures { Answers result (value_of shape text.now) }
{
    match shape {
        Shape::Flag => Ok(Value::Flag),
        Shape::Path => read_path(alloc, text),
        Shape::Label => read_label(alloc, text),
        Shape::Snapshot => read_snapshot(alloc, text),
        Shape::NewSnapshot => read_new_snapshot(alloc, text),
        Shape::Number { low, high } => read_number(low, high, text),
        Shape::Time => read_time(text),
        Shape::VolumeType => read_volume_type(text),
        Shape::Part => read_part(alloc, text),
        Shape::PolicyType => read_policy_type(text),
        Shape::Truth => read_truth(text),
    }
}

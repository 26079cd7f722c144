ghost use Rattle.std.specs.Prelude.{◌≡◌, IfOk, string_bytes};
ghost use Rattle.sm_report.specs.Text.{line_text, label_text, maker_text, condition_text, base_text, course_text, stopped_text, rule_text, rules_text, snapshot_words as words_of_snapshot, listed_text as text_of_listed, relation_words as words_of_relation, policy_text, policy_kind_text, flag_text, state_word, status_word, reason_word, more_rules_text};

use sm_base::{Ident, Label, NoMemory, Path, Path1, PolicyKind, Reason, RelNo, SnapName, VolNo};
use sm_defs::{MirrorState, Status4};
use sm_model::{Condition, Course, Line, Rules, WorldRule};
use std::alloc::Global;

/// The label, or `-` without one.
fn label_word(alloc: Global, label: &Option<Label>) -> Result<String, NoMemory>
    ensures { IfOk result (λ text. string_bytes text ≡ label_text label.now) }
{
    match label {
        None => Ok(String::from_str(alloc, "-")?),
        Some(label) => Ok(format!(in alloc; "{label}")?),
    }
}

/// `client`, or the number of the relationship that made a snapshot.
fn maker_word(alloc: Global, made: u32) -> Result<String, NoMemory>
    ensures { IfOk result (λ text. string_bytes text ≡ maker_text made) }
{
    if made == 0 {
        Ok(String::from_str(alloc, "client")?)
    } else {
        Ok(format!(in alloc; "{made}")?)
    }
}

/// What a snapshot's line says before its digest.
fn snapshot_words(
    alloc: Global,
    volume: VolNo,
    name: &SnapName,
    ident: Ident,
    label: &Option<Label>,
) -> Result<String, NoMemory>
    ensures { IfOk result (λ text. string_bytes text ≡ words_of_snapshot volume name.now ident label.now) }
{
    let number = volume.0;
    let label = label_word(alloc, label)?;
    Ok(format!(in alloc; "snapshot {number} {name} id={ident} label={label}")?)
}

/// What a snapshot's line says but for its digest.
fn listed_text(
    alloc: Global,
    volume: VolNo,
    name: &SnapName,
    ident: Ident,
    label: &Option<Label>,
    time: u64,
    made: u32,
) -> Result<String, NoMemory>
    ensures { IfOk result (λ text. string_bytes text ≡ text_of_listed volume name.now ident label.now time made) }
{
    let words = snapshot_words(alloc, volume, name, ident, label)?;
    let maker = maker_word(alloc, made)?;
    Ok(format!(in alloc; "{words} time={time} made={maker}")?)
}

fn kind_word(kind: PolicyKind) -> &'static str
    ensures { result.now ≡ policy_kind_text kind }
{
    match kind {
        PolicyKind::AsyncMirror => "async-mirror",
        PolicyKind::Vault => "vault",
    }
}

fn flag_word(flag: bool) -> &'static str
    ensures { result.now ≡ flag_text flag }
{
    if flag { "true" } else { "false" }
}

fn text_of_rule(alloc: Global, rule: &WorldRule) -> Result<String, NoMemory>
    ensures { IfOk result (λ text. string_bytes text ≡ rule_text rule.now) }
{
    let label = &rule.label;
    let keep = rule.keep;
    let preserve = flag_word(rule.preserve);
    Ok(format!(in alloc; "{label}:{keep}:{preserve}")?)
}

/// Further rules, each behind a comma.
fn more_rules(alloc: Global, rules: &[WorldRule]) -> Result<String, NoMemory>
    ensures { IfOk result (λ text. string_bytes text ≡ more_rules_text rules.now) }
{
    match rules {
        [] => Ok(String::new(alloc)),
        [rule, others @ ..] => {
            let first = text_of_rule(alloc, rule)?;
            let more = more_rules(alloc, others)?;
            Ok(format!(in alloc; ",{first}{more}")?)
        }
    }
}

fn text_of_rules(alloc: Global, rules: &[WorldRule]) -> Result<String, NoMemory>
    ensures { IfOk result (λ text. string_bytes text ≡ rules_text rules.now) }
{
    match rules {
        [] => Ok(String::from_str(alloc, "-")?),
        [rule, others @ ..] => {
            let first = text_of_rule(alloc, rule)?;
            let more = more_rules(alloc, others)?;
            Ok(format!(in alloc; "{first}{more}")?)
        }
    }
}

fn word_of_state(state: MirrorState) -> &'static str
    ensures { result.now ≡ state_word state }
{
    match state {
        MirrorState::Uninitialized => "uninitialized",
        MirrorState::Snapmirrored => "snapmirrored",
        MirrorState::BrokenOff => "broken-off",
    }
}

fn word_of_status(status: Status4) -> &'static str
    ensures { result.now ≡ status_word status }
{
    match status {
        Status4::Idle => "idle",
        Status4::Transferring => "transferring",
        Status4::Quiescing => "quiescing",
        Status4::Quiesced => "quiesced",
    }
}

fn text_of_condition(alloc: Global, condition: Option<Condition>) -> Result<String, NoMemory>
    ensures { IfOk result (λ text. string_bytes text ≡ condition_text condition) }
{
    match condition {
        None => Ok(String::from_str(alloc, " state=- status=-")?),
        Some(condition) => {
            let state = word_of_state(condition.state);
            let status = word_of_status(condition.status);
            Ok(format!(in alloc; " state={state} status={status}")?)
        }
    }
}

fn text_of_base(alloc: Global, base: Option<Ident>) -> Result<String, NoMemory>
    ensures { IfOk result (λ text. string_bytes text ≡ base_text base) }
{
    match base {
        None => Ok(String::from_str(alloc, "-")?),
        Some(ident) => Ok(format!(in alloc; "{ident}")?),
    }
}

/// The word of a reason why a transfer does not run.
pub(crate) fn word_of_reason(reason: Reason) -> &'static str
    ensures { result.now ≡ reason_word reason }
{
    match reason {
        Reason::HeldDownstream { .. } => "HeldDownstream",
        Reason::SourceReadOnly => "SourceReadOnly",
        Reason::SnapFull => "SnapFull",
        Reason::OtherLayout => "OtherLayout",
        Reason::NoSpace { .. } => "NoSpace",
        Reason::Aborted => "Aborted",
        Reason::Restart => "Restart",
    }
}

fn word_of_stop(stopped: Option<Reason>) -> &'static str
    ensures { result.now ≡ stopped_text stopped }
{
    match stopped {
        None => "running",
        Some(reason) => word_of_reason(reason),
    }
}

fn text_of_course(alloc: Global, course: Option<Course>) -> Result<String, NoMemory>
    ensures { IfOk result (λ text. string_bytes text ≡ course_text course) }
{
    match course {
        None => Ok(String::from_str(alloc, "-")?),
        Some(course) => {
            let number = course.number;
            let stopped = word_of_stop(course.stopped);
            Ok(format!(in alloc; "{number}:{stopped}")?)
        }
    }
}

/// What a relationship's line says up to its policy.
fn relation_words(
    alloc: Global,
    relation: RelNo,
    source: &Path,
    destination: &Path,
    policy: &Path1,
) -> Result<String, NoMemory>
    ensures { IfOk result (λ text. string_bytes text ≡ words_of_relation relation source.now destination.now policy.now) }
{
    let number = relation.0;
    Ok(format!(in alloc; "relationship {number} {source} {destination} policy={policy}")?)
}

fn text_of_policy(
    alloc: Global,
    name: &Path1,
    kind: PolicyKind,
    rules: &Rules,
) -> Result<String, NoMemory>
    ensures { IfOk result (λ text. string_bytes text ≡ policy_text name.now kind rules.now) }
{
    let kind = kind_word(kind);
    let rules = text_of_rules(alloc, &rules.rules)?;
    Ok(format!(in alloc; "policy {name} type={kind} rules={rules}")?)
}

/// The text of a line of the report or of a table, without its line end.
pub(crate) fn text_of_line(alloc: Global, line: &Line) -> Result<String, NoMemory>
    ensures { IfOk result (λ text. string_bytes text ≡ line_text line.now) }
{
    match line {
        Line::Head {
            volumes,
            relationships,
            policies,
            clock,
        } => Ok(format!(in alloc;
            "report volumes={volumes} relationships={relationships} policies={policies} clock={clock}"
        )?),
        Line::Volume {
            volume,
            path,
            kind,
            blocks,
            physical,
            used,
            snapshots,
        } => {
            let number = volume.0;
            Ok(format!(in alloc;
                "volume {number} {path} type={kind} blocks={blocks} physical={physical} used={used} snapshots={snapshots}"
            )?)
        }
        Line::Active { volume, digest } => {
            let number = volume.0;
            let digits = hex::encode(alloc, digest)?;
            Ok(format!(in alloc; "active {number} sha256={digits}")?)
        }
        Line::Snapshot {
            volume,
            name,
            ident,
            label,
            time,
            made,
            digest,
        } => {
            let words = snapshot_words(alloc, *volume, name, *ident, label)?;
            let maker = maker_word(alloc, *made)?;
            let digits = hex::encode(alloc, digest)?;
            Ok(format!(in alloc; "{words} time={time} made={maker} sha256={digits}")?)
        }
        Line::Listed {
            volume,
            name,
            ident,
            label,
            time,
            made,
        } => listed_text(alloc, *volume, name, *ident, label, *time, *made),
        Line::Relationship {
            relation,
            source,
            destination,
            policy,
            condition,
            base,
            transfer,
        } => {
            let words = relation_words(alloc, *relation, source, destination, policy)?;
            let condition = text_of_condition(alloc, *condition)?;
            let base = text_of_base(alloc, *base)?;
            let course = text_of_course(alloc, *transfer)?;
            Ok(format!(in alloc; "{words}{condition} base={base} transfer={course}")?)
        }
        Line::Policy { name, kind, rules } => text_of_policy(alloc, name, *kind, rules),
    }
}

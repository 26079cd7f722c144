// What was decided from the catalogue is done.
ghost use Rattle.std.specs.Prelude.{◌≡◌, IfOk, Ok};
ghost use Rattle.sm_model.specs.Telling.{told_by};
ghost use Rattle.sm_model.specs.Answers.{told};
ghost use Rattle.sm_node.specs.Nodes.{world_with, IsUp};
ghost use Rattle.sm_node.specs.Acts.{Acts};
ghost use Rattle.sm_node.specs.Served.{first_of};
ghost use Rattle.sm_events.specs.Deciding.{answer_by, IsNext, IsBare};

use sm_base::Refusal;
use sm_catroot::Catalog;
use sm_disk::Disk;
use sm_model::Reply;
use sm_node::{Node, NodeFault, copied};
use sm_register::Ready;
use std::alloc::Global;

// Another of a reply that owns no memory.
fn again(reply: &Reply) -> Reply
    requires { IsBare reply.now }
    ensures { result ≡ reply.now }
{
    match reply {
        Reply::Done => Reply::Done,
        Reply::Related { relation } => Reply::Related {
            relation: *relation,
        },
        _ => unreachable!(),
    }
}

// Commits a catalogue that is ready, and answers twice. No memory is taken.
fn commit_twice<D: Disk + Drop>(
    node: &mut Node<D>,
    ready: Ready<Catalog>,
    reply: Reply,
) -> Result<(Reply, Reply), NodeFault>
    requires up { IsUp node.old }
    requires places { ready.volumes ≡ node.old.root.held.volumes }
    requires bare { IsBare reply }

    ensures acts { Acts D.state (Ok (record { reply = told reply; world = world_with ready node.old.seats node.old.lengths })) node.old (first_of result) node.new }
    ensures twice { IfOk result (λ replies. told_by replies.1 ≡ told_by replies.0) }
{
    let other = again(&reply);
    match node.commit(ready, reply) {
        Ok(reply) => Ok((reply, other)),
        Err(fault) => Err(fault),
    }
}

/// Commits the next catalogue, or answers the refusal and calls no device. All memory is taken before the commit.
pub fn settle<D: Disk + Drop>(
    alloc: Global,
    node: &mut Node<D>,
    decided: Result<Catalog, Refusal>,
    reply: Reply,
) -> Result<(Reply, Reply), NodeFault>
    requires up { IsUp node.old }
    requires next { IsNext node.old.root.held decided }
    requires bare { IsBare reply }

    ensures acts { Acts D.state (answer_by node.old reply decided) node.old (first_of result) node.new }
    ensures twice { IfOk result (λ replies. told_by replies.1 ≡ told_by replies.0) }
{
    node.told_up();
    match decided {
        Err(refusal) => copied(alloc, Ok(Reply::Refused(refusal))),
        Ok(next) => {
            let ready = Ready::new(alloc, next)?;
            commit_twice(node, ready, reply)
        }
    }
}

//! The slots of a table, linked by index.
ghost use Rattle.std.specs.Prelude.{◌≡◌, ◌+◌, ◌<◌, ◌^◌, length};
ghost use Rattle.linked_table.specs.RingWalks.{link_at};
ghost use Rattle.linked_table.specs.working.Rings.{unlinked, linked_last, with_after, with_before};
ghost use Rattle.linked_table.specs.NodeColumns.{columns};
ghost use Rattle.linked_table.specs.working.NodeLinks.{chains_of, Rechains, lone_node};

use crate::list::Links;

/// Slot of a table with its links, or the sentinel of the ring of the used or of the free slots.
#[derive(Drop)]
pub(crate) struct Node<K, V> {
    /// Neighbours in the ring of the used or of the free slots.
    pub(crate) recent: Links,
    /// Neighbours in the ring of a bucket. The sentinel of bucket `b` has the number
    /// `nodes.len() + b`.
    pub(crate) chain: Links,
    /// Key and value of an entry.
    pub(crate) pair: Option<(K, V)>,
}

impl<K, V> Node<K, V> {
    /// Returns a node without a pair, alone in its rings.
    pub(crate) fn lone(node: u32) -> Node<K, V>
        ensures { result ≡ lone_node node }
    {
        Node {
            recent: Links::lone(node),
            chain: Links::lone(node),
            pair: None,
        }
    }
}

// Links the neighbours of this node by recency to each other.
fn unlink<K, V>(nodes: &mut Vec<Node<K, V>>, node: u32)
    requires inside { node < length nodes.old.items }
    requires before_inside { (link_at (columns nodes.old.items).recency node).before < length nodes.old.items }
    requires after_inside { (link_at (columns nodes.old.items).recency node).after < length nodes.old.items }
    ensures { columns nodes.new.items ≡ record (columns nodes.old.items) { recency = unlinked (columns nodes.old.items).recency node } }
{
    let here = nodes[node as usize].recent;
    nodes[here.before as usize].recent.after = here.after;
    nodes[here.after as usize].recent.before = here.before;
}

/// Links a node that is in no ring by recency as the last before this sentinel.
pub(crate) fn link_last<K, V>(nodes: &mut Vec<Node<K, V>>, hub: u32, node: u32)
    requires inside { node < length nodes.old.items }
    requires hub_inside { hub < length nodes.old.items }
    requires last_inside { (link_at (columns nodes.old.items).recency hub).before < length nodes.old.items }
    ensures { columns nodes.new.items ≡ record (columns nodes.old.items) { recency = linked_last (columns nodes.old.items).recency hub node } }
{
    let last = nodes[hub as usize].recent.before;
    nodes[last as usize].recent.after = node;
    nodes[node as usize].recent = Links {
        before: last,
        after: hub,
    };
    nodes[hub as usize].recent.before = node;
}

/// Moves a node to the end of the ring by recency that has this sentinel.
pub(crate) fn move_last<K, V>(nodes: &mut Vec<Node<K, V>>, hub: u32, node: u32)
    requires inside { node < length nodes.old.items }
    requires before_inside { (link_at (columns nodes.old.items).recency node).before < length nodes.old.items }
    requires after_inside { (link_at (columns nodes.old.items).recency node).after < length nodes.old.items }
    requires hub_inside { hub < length nodes.old.items }
    requires last_inside { (link_at (unlinked (columns nodes.old.items).recency node) hub).before < length nodes.old.items }
    ensures { columns nodes.new.items ≡ record (columns nodes.old.items) { recency = linked_last (unlinked (columns nodes.old.items).recency node) hub node } }
{
    unlink(nodes, node);
    link_last(nodes, hub, node);
}

// Sets the node after a node or sentinel of a bucket.
fn set_after<K, V>(nodes: &mut Vec<Node<K, V>>, hubs: &mut Vec<Links>, at: u32, after: u32)
    requires { at < length nodes.old.items + length hubs.old.items }
    ensures { Rechains nodes.old.items hubs.old.items nodes.new.items hubs.new.items (with_after (chains_of nodes.old.items hubs.old.items) at after) }
{
    let at = at as usize;
    if at < nodes.len() {
        nodes[at].chain.after = after;
    } else {
        hubs[at - nodes.len()].after = after;
    }
}

// Sets the node before a node or sentinel of a bucket.
fn set_before<K, V>(nodes: &mut Vec<Node<K, V>>, hubs: &mut Vec<Links>, at: u32, before: u32)
    requires { at < length nodes.old.items + length hubs.old.items }
    ensures { Rechains nodes.old.items hubs.old.items nodes.new.items hubs.new.items (with_before (chains_of nodes.old.items hubs.old.items) at before) }
{
    let at = at as usize;
    if at < nodes.len() {
        nodes[at].chain.before = before;
    } else {
        hubs[at - nodes.len()].before = before;
    }
}

/// Links the neighbours of this node in its bucket to each other.
pub(crate) fn unlink_chain<K, V>(nodes: &mut Vec<Node<K, V>>, hubs: &mut Vec<Links>, node: u32)
    requires inside { node < length nodes.old.items }
    requires before_inside { (link_at (chains_of nodes.old.items hubs.old.items) node).before < length nodes.old.items + length hubs.old.items }
    requires after_inside { (link_at (chains_of nodes.old.items hubs.old.items) node).after < length nodes.old.items + length hubs.old.items }
    ensures { Rechains nodes.old.items hubs.old.items nodes.new.items hubs.new.items (unlinked (chains_of nodes.old.items hubs.old.items) node) }
{
    let here = nodes[node as usize].chain;
    set_after(nodes, hubs, here.before, here.after);
    set_before(nodes, hubs, here.after, here.before);
}

/// Links a node that is in no bucket as the last of this one.
pub(crate) fn link_chain<K, V>(
    nodes: &mut Vec<Node<K, V>>,
    hubs: &mut Vec<Links>,
    bucket: u32,
    node: u32,
)
    requires inside { node < length nodes.old.items }
    requires bucket_inside { bucket < length hubs.old.items }
    requires few { length nodes.old.items + length hubs.old.items < 2 ^ 32 }
    requires last_inside { (link_at (chains_of nodes.old.items hubs.old.items) (length nodes.old.items + bucket)).before < length nodes.old.items + length hubs.old.items }
    ensures { Rechains nodes.old.items hubs.old.items nodes.new.items hubs.new.items (linked_last (chains_of nodes.old.items hubs.old.items) (length nodes.old.items + bucket) node) }
{
    let hub = nodes.len() as u32 + bucket;
    let last = hubs[bucket as usize].before;
    set_after(nodes, hubs, last, node);
    nodes[node as usize].chain = Links {
        before: last,
        after: hub,
    };
    hubs[bucket as usize].before = node;
}

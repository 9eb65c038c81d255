//! The texts of the nodes of patterns.
ghost use Rattle.std.specs.Prelude.{◌≡◌, ◌<◌, true, IfSome, length, option_map};
ghost use Rattle.std.specs.List.{list_all};
ghost use Rattle.aggregate_rules.specs.RuleTexts.{any_node, closed_node, is_name, is_name_byte, named_node, named_parts, node_of, open_node};
ghost use Rattle.aggregate_rules.specs.SeenWords.{seen_node};

use crate::node::{Gap, NodeText};
use crate::text::{all_name_bytes, all_plain, closing_in, gap_in};

/// The parts of a node's text: `None` exactly where it is no node of a pattern.
#[tactic(auto, unfolding(crate::specs::RuleTexts::node_of))]
pub(crate) fn node_of(text: &[u8]) -> Option<NodeText<'_>>
    ensures node { option_map seen_node result ≡ node_of text.now }
    ensures name { IfSome result (λ node. list_all is_name_byte node.name.now ≡ true) }
{
    match gap_in(text) {
        Some(at) => return open_node(text, at),
        None => return closed_node(text),
    }
}

// A node without a gap.
#[tactic(auto, unfolding(crate::specs::RuleTexts::closed_node))]
fn closed_node(text: &[u8]) -> Option<NodeText<'_>>
    ensures node { option_map seen_node result ≡ closed_node text.now }
    ensures name { IfSome result (λ node. list_all is_name_byte node.name.now ≡ true) }
{
    if text.is_empty() || !all_plain(text) {
        return None;
    }
    Some(NodeText {
        before: text,
        gap: Gap::Closed,
        name: &[],
        after: &[],
    })
}

// A node whose gap begins at a place.
#[tactic(auto, unfolding(crate::specs::RuleTexts::open_node))]
fn open_node(text: &[u8], at: usize) -> Option<NodeText<'_>>
    requires { at < length text.now }
    ensures node { option_map seen_node result ≡ open_node text.now at }
    ensures name { IfSome result (λ node. list_all is_name_byte node.name.now ≡ true) }
{
    let before = &text[..at];
    let behind = &text[at + 1..];
    if text[at] == b'*' {
        return any_node(before, behind);
    }
    named_node(before, behind)
}

#[tactic(auto, unfolding(crate::specs::RuleTexts::any_node))]
fn any_node<'a>(before: &'a [u8], after: &'a [u8]) -> Option<NodeText<'a>>
    ensures node { option_map seen_node result ≡ any_node before.now after.now }
    ensures name { IfSome result (λ node. list_all is_name_byte node.name.now ≡ true) }
{
    if !all_plain(before) || !all_plain(after) {
        return None;
    }
    Some(NodeText {
        before,
        gap: Gap::Any,
        name: &[],
        after,
    })
}

// A node of a name, by what stands behind the `<`.
#[tactic(auto, unfolding(crate::specs::RuleTexts::named_node))]
fn named_node<'a>(before: &'a [u8], behind: &'a [u8]) -> Option<NodeText<'a>>
    ensures node { option_map seen_node result ≡ named_node before.now behind.now }
    ensures name { IfSome result (λ node. list_all is_name_byte node.name.now ≡ true) }
{
    let at = closing_in(behind)?;
    named_parts(before, &behind[..at], &behind[at + 1..])
}

#[tactic(auto, unfolding(crate::specs::RuleTexts::named_parts))]
fn named_parts<'a>(before: &'a [u8], name: &'a [u8], after: &'a [u8]) -> Option<NodeText<'a>>
    ensures node { option_map seen_node result ≡ named_parts before.now name.now after.now }
    ensures name { IfSome result (λ node. list_all is_name_byte node.name.now ≡ true) }
{
    if !is_name(name) || !all_plain(before) || !all_plain(after) {
        return None;
    }
    Some(NodeText {
        before,
        gap: Gap::Named,
        name,
        after,
    })
}

// Whether a text is a name.
fn is_name(text: &[u8]) -> bool
    ensures { result ≡ is_name text.now }
{
    !text.is_empty() && all_name_bytes(text)
}

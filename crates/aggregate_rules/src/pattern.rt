//! The patterns of rules.
ghost use Rattle.std.specs.Prelude.{◌≡◌, IfOk};
ghost use Rattle.aggregate_rules.specs.RuleTexts.{pattern_of};

use crate::bytes::Bytes;
use crate::names::Names;
use crate::node::{Gap, NodeText, PatternNode};
use crate::node_text::node_of;
use crate::text::next_node;
use std::alloc::{AllocError, Global};
use std::marker::Model;

/// The nodes of a pattern. Contracts see the list of them.
#[derive(Drop)]
pub(crate) struct Nodes {
    items: Vec<PatternNode>,
}

impl Model for Nodes {
    ghost use Rattle.std.specs.Prelude.{List};
    ghost use Rattle.aggregate_rules.specs.declared.node.PatternNode.{PatternNode as Node};

    ghost Value = { List Node };

    ghost view = { λ n. n.items.items };
}

impl Nodes {
    ghost use Rattle.std.specs.Prelude.{[]};

    /// The nodes as a slice.
    pub(crate) fn as_slice(&self) -> &[PatternNode]
        ensures { result.now ≡ self.now }
    {
        self.items.as_slice()
    }
}

/// A pattern that is being read: its nodes, and the names of their gaps in their order.
#[derive(Drop)]
pub(crate) struct Pattern {
    nodes: Nodes,
    names: Names,
}

impl Model for Pattern {
    ghost use Rattle.aggregate_rules.specs.RuleTexts.{PatternValue};

    ghost Value = { PatternValue };

    ghost view = { λ p. record { nodes = p.nodes; names = p.names } };
}

impl Pattern {
    ghost use Rattle.std.specs.Prelude.{Some, None, true, if◌then◌else◌};
    ghost use Rattle.std.specs.List.{list_all};
    ghost use Rattle.aggregate_rules.specs.RuleTexts.{after_node, empty_pattern, is_name_byte, with_node};
    ghost use Rattle.aggregate_rules.specs.SeenWords.{seen_node};

    // No nodes.
    fn new(alloc: Global) -> Pattern
        ensures { result ≡ empty_pattern }
    {
        Pattern {
            nodes: Nodes {
                items: Vec::new(alloc),
            },
            names: Names::new(alloc),
        }
    }

    /// The names of the gaps.
    pub(crate) fn names(&self) -> &Names
        ensures { result.now ≡ self.now.names }
    {
        &self.names
    }

    /// The nodes, without their names.
    pub(crate) fn into_nodes(self) -> Nodes
        ensures { result ≡ self.nodes }
    {
        self.nodes
    }

    // Adds the node of a text: `false` exactly where it is none, or its name stands in the pattern
    // already.
    #[tactic(auto, unfolding(crate::specs::RuleTexts::after_node))]
    fn take_text(&mut self, alloc: Global, text: &[u8]) -> Result<bool, AllocError>
        ensures { IfOk result
            (λ fits. (if fits then Some self.new else None) ≡ after_node self.old text.now) }
    {
        match node_of(text) {
            Some(node) => return self.take_node(alloc, node),
            None => return Ok(false),
        }
    }

    #[tactic(auto, unfolding(crate::specs::RuleTexts::with_node))]
    fn take_node(&mut self, alloc: Global, node: NodeText<'_>) -> Result<bool, AllocError>
        requires { list_all is_name_byte node.name.now ≡ true }
        ensures { IfOk result
            (λ fits. (if fits then Some self.new else None) ≡ with_node self.old (seen_node node.entry)) }
    {
        if node.gap == Gap::Named && !self.names.add(alloc, node.name)? {
            return Ok(false);
        }
        self.nodes.items.push(PatternNode {
            before: Bytes::of(alloc, node.before)?,
            gap: node.gap,
            after: Bytes::of(alloc, node.after)?,
        })?;
        Ok(true)
    }
}

/// The pattern of a text: `None` exactly where it is none.
#[tactic(auto, unfolding(crate::specs::RuleTexts::pattern_from))]
pub(crate) fn pattern_of(alloc: Global, text: &[u8]) -> Result<Option<Pattern>, AllocError>
    ensures { IfOk result (λ pattern. pattern ≡ pattern_of text.now) }
{
    let mut pattern = Pattern::new(alloc);
    let mut rest = text;
    while let Some(node) = next_node(rest) {
        if !pattern.take_text(alloc, node.front)? {
            return Ok(None);
        }
        rest = node.rest;
    }
    if !pattern.take_text(alloc, rest)? {
        return Ok(None);
    }
    Ok(Some(pattern))
}

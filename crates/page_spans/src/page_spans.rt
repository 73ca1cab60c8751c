//! The spans of a page's places.
ghost use Rattle.std.specs.Prelude.{◌≡◌, ◌≢◌, ◌<◌, ◌≤◌, ◌+◌, ℕ, ℤ, false, List, Option, None, Some, is_some, IsSome, OnOk, OnErr, IfErr};
ghost use Rattle.block_disk.specs.Blocks.{IsBlock};
ghost use Rattle.om3_coeff.specs.declared.span.Span.{Span};
ghost use Rattle.om3_coeff.specs.Spans.{AreSlots, IsProper, IsProperIfAny, span};
ghost use Rattle.node_page.specs.Fields.{flag_at, coef_at};
ghost use Rattle.node_page.specs.Layout.{AreFlags, AreDifferences, has_child};
ghost use Rattle.page_spans.specs.Heaps.{span_at, AreProper, IsHeap, IsSplit, IsKept};
ghost use Rattle.page_spans.specs.Lists.{key_of_top, AreNodesOf, AreLeavesOf};
ghost use Rattle.page_spans.specs.Failing.{IsFirstBad};
ghost use Rattle.page_spans.specs.Spreading.{SpreadsLists, SpreadsSeen, BlamesSeen};

use crate::errors::BadNode;
use crate::joining::{join_above, join_all};
use crate::splitting::split_all;
use node_page::PageView;
use om3_coeff::Span;
use std::marker::Model;

// No span at any place.
fn no_spans() -> [Option<Span>; 255]
    ensures { (n : ℕ) → span_at result n ≡ None }
{
    [None; 255]
}

/// The spans of the 127 nodes of a page and of its 128 leaves. All are proper.
#[derive(Drop)]
pub struct PageSpans {
    spans: [Option<Span>; 255],
}

impl Model for PageSpans {
    ghost use Rattle.std.specs.Prelude.{◌≡◌, List, Option};
    ghost use Rattle.om3_coeff.specs.declared.span.Span.{Span};
    ghost use Rattle.page_spans.specs.Heaps.{span_at, AreProper};

    ghost Value = { List (Option Span) };

    ghost view = { λ page. page.spans };

    ghost invariant = { λ page. AreProper (span_at page.spans) };
}

impl PageSpans {
    /// No spans: those of a page below which nothing is stored.
    pub fn new() -> PageSpans
        ensures none { (n : ℕ) → span_at result n ≡ None }
        ensures leaves { (list : List (Option ℤ)) (level index : ℕ) → 1 ≤ level → span list (key_of_top level index) ≡ None
            → AreLeavesOf list level index (span_at result) }
    {
        PageSpans { spans: no_spans() }
    }

    /// Takes all spans away.
    pub fn clear(&mut self)
        ensures none { (n : ℕ) → span_at self.new n ≡ None }
        ensures leaves { (list : List (Option ℤ)) (level index : ℕ) → 1 ≤ level → span list (key_of_top level index) ≡ None
            → AreLeavesOf list level index (span_at self.new) }
    {
        *self = PageSpans::new();
    }

    /// The spans that a page's coefficients give below its top's span. `BadNode` names the first node
    /// whose coefficient doesn't split the span that those above give it; none is named exactly where
    /// there are spans of which the coefficients are those.
    pub fn spread(&mut self, page: &PageView, top: Span) -> Result<(), BadNode>
        requires proper { IsProper top }
        ensures top { span_at self.new 0 ≡ Some top }
        ensures proper { AreProper (span_at self.new) }
        ensures splits { OnOk result ((n : ℕ) → n < 127 → IsSplit (span_at self.new) (coef_at page.now.bytes.now) n) }
        ensures heap { OnOk result (IsHeap (span_at self.new) (coef_at page.now.bytes.now)) }
        ensures bad { IfErr result (λ bad. IsFirstBad (span_at self.new) (coef_at page.now.bytes.now) bad.node) }
        ensures joined { (want : ℕ → Option Span) → IsHeap want (coef_at page.now.bytes.now) → AreProper want → want 0 ≡ Some top
            → OnErr result ⊥ }
        ensures same { (want : ℕ → Option Span) → IsHeap want (coef_at page.now.bytes.now) → AreProper want → want 0 ≡ Some top
            → (n : ℕ) → n < 255 → span_at self.new n ≡ want n }
        ensures split { (list : List (Option ℤ)) (level index : ℕ) → AreSlots list → 1 ≤ level
            → AreNodesOf list level index page.now.bytes.now
            → Some top ≡ span list (key_of_top level index) → OnErr result ⊥ }
        ensures leaves { SpreadsLists page.now.bytes.now top (span_at self.new) }
        ensures children { OnOk result ((child : ℕ) → child < 128
            → has_child page.now.bytes.now child ≡ is_some (span_at self.new (127 + child))) }
        ensures seen { SpreadsSeen page.now.bytes.now top result (span_at self.new) }
        ensures bad_key { BlamesSeen page.now.bytes.now top result }
    {
        self.spans[0] = Some(top);
        split_all(&mut self.spans, page)
    }

    /// The span of the top.
    pub fn top(&self) -> Option<Span>
        ensures span { result ≡ span_at self.now 0 }
        ensures proper { IsProperIfAny result }
    {
        self.spans[0]
    }

    /// The span of a leaf, 0 to 127.
    pub fn leaf(&self, leaf: u8) -> Option<Span>
        requires leaf { leaf < 128 }
        ensures span { result ≡ span_at self.now (127 + leaf) }
        ensures proper { IsProperIfAny result }
    {
        self.spans[127 + usize::from(leaf)]
    }

    /// Sets the span of a leaf, 0 to 127. All others stay, those above it too, until they are gathered.
    pub fn set_leaf(&mut self, leaf: u8, span: Option<Span>)
        requires leaf { leaf < 128 }
        requires proper { IsProperIfAny span }
        ensures leaf { span_at self.new (127 + leaf) ≡ span }
        ensures others { (n : ℕ) → n ≢ 127 + leaf → span_at self.new n ≡ span_at self.old n }
    {
        self.spans[127 + usize::from(leaf)] = span;
    }

    /// Joins the nodes' spans from the leaves, and writes all coefficients into a page of 4,096 bytes.
    /// The leaves stay, and so does all else in the page.
    pub fn gather(&mut self, bytes: &mut [u8])
        requires whole { IsBlock bytes.old }
        ensures whole { IsBlock bytes.new }
        ensures heap { IsHeap (span_at self.new) (coef_at bytes.new) }
        ensures proper { AreProper (span_at self.new) }
        ensures leaves { (n : ℕ) → 127 ≤ n → span_at self.new n ≡ span_at self.old n }
        ensures kept { IsKept bytes.old bytes.new }
        ensures flags { IsSome (span_at self.new 0) → flag_at bytes.old 254 ≡ false → flag_at bytes.old 255 ≡ false → AreFlags bytes.new }
        ensures differences { AreDifferences bytes.new }
        ensures children { (child : ℕ) → child < 128 → has_child bytes.new child ≡ is_some (span_at self.old (127 + child)) }
        ensures nodes { (list : List (Option ℤ)) (level index : ℕ) → 1 ≤ level → AreLeavesOf list level index (span_at self.old)
            → AreNodesOf list level index bytes.new }
        ensures top { (list : List (Option ℤ)) (level index : ℕ) → 1 ≤ level → AreLeavesOf list level index (span_at self.old)
            → span_at self.new 0 ≡ span list (key_of_top level index) }
    {
        join_all(&mut self.spans, bytes);
    }

    /// Sets the span of one leaf, 0 to 127, of spans that agree with the page's coefficients, and joins
    /// the seven nodes above it. It answers what `set_leaf` and `gather` do.
    pub fn put_leaf(&mut self, bytes: &mut [u8], leaf: u8, leaf_span: Option<Span>)
        requires whole { IsBlock bytes.old }
        requires leaf { leaf < 128 }
        requires proper { IsProperIfAny leaf_span }
        requires heap { IsHeap (span_at self.old) (coef_at bytes.old) }
        ensures whole { IsBlock bytes.new }
        ensures heap { IsHeap (span_at self.new) (coef_at bytes.new) }
        ensures proper { AreProper (span_at self.new) }
        ensures leaf { span_at self.new (127 + leaf) ≡ leaf_span }
        ensures leaves { (n : ℕ) → 127 ≤ n → n ≢ 127 + leaf → span_at self.new n ≡ span_at self.old n }
        ensures kept { IsKept bytes.old bytes.new }
        ensures flags { IsSome (span_at self.new 0) → flag_at bytes.old 254 ≡ false → flag_at bytes.old 255 ≡ false → AreFlags bytes.new }
        ensures differences { AreDifferences bytes.new }
        ensures children { (child : ℕ) → child < 128 → has_child bytes.new child ≡ is_some (span_at self.new (127 + child)) }
        ensures nodes { (list : List (Option ℤ)) (level index : ℕ) → 1 ≤ level → AreLeavesOf list level index (span_at self.new)
            → AreNodesOf list level index bytes.new }
        ensures top { (list : List (Option ℤ)) (level index : ℕ) → 1 ≤ level → AreLeavesOf list level index (span_at self.new)
            → span_at self.new 0 ≡ span list (key_of_top level index) }
    {
        self.spans[127 + usize::from(leaf)] = leaf_span;
        join_above(&mut self.spans, bytes, leaf);
    }
}

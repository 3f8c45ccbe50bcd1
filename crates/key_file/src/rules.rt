//! The rules of an event, each judged against what those before it came to.

ghost use Rattle.std.specs.Prelude.{◌≡◌, ◌+◌, nat_lt};
ghost use Rattle.first_fault.specs.FirstFault.{first_broken};
ghost use Rattle.key_file.specs.Rules.{fourth_back, is_down, is_held, soon_after, edge_judgements, key_judgements};
ghost use Rattle.key_file.specs.Rules.{is_too_many, judgements};
ghost use Rattle.key_file.specs.Keeps.{asked};
ghost use Rattle.key_file.specs.declared.rule.Rule.TheVariants.{Dwell, Density};

use crate::brief::Brief;
use crate::event::Event;
use crate::fault::LAST_STAMP;
use crate::rule::Rule;
use board_terms::{Edge, Place};

/// The least time between two edges of a key, and between an edge and the fourth one after it, in cycles.
const LEAST_TIME: u64 = 2_240;

/// The most edges and events of the host.
const MOST_EVENTS: usize = 65_536;

/// Whether the key at a place is down.
fn is_down(brief: &Brief, place: Place) -> bool
    ensures { result ≡ is_down ((asked brief.now).last place) }
{
    match brief.last_edge(place) {
        Some(edge) => edge.down,
        None => false,
    }
}

/// Whether an edge comes too soon after an earlier one.
fn is_soon(earlier: &Edge, edge: &Edge) -> bool
    ensures { result ≡ nat_lt edge.now.stamp (earlier.now.stamp + 2240) }
{
    edge.stamp.saturating_sub(earlier.stamp) < LEAST_TIME
}

/// The rule of dwell, if an edge breaks it.
fn breaks_dwell(brief: &Brief, edge: &Edge) -> Option<Rule>
    ensures { result ≡ first_broken (soon_after Dwell ((asked brief.now).last edge.now.place) edge.now) }
{
    let earlier = brief.last_edge(edge.place)?;
    is_soon(&earlier, edge).then_some(Rule::Dwell(earlier.stamp, edge.stamp))
}

/// The rule of density, if an edge breaks it.
fn breaks_density(brief: &Brief, edge: &Edge) -> Option<Rule>
    ensures { result ≡ first_broken (soon_after Density (fourth_back (asked brief.now)) edge.now) }
{
    let earlier = brief.fourth_back()?;
    is_soon(&earlier, edge).then_some(Rule::Density(earlier.stamp, edge.stamp))
}

/// The first rule of edges that an edge breaks.
fn broken_by_edge(brief: &Brief, edge: &Edge) -> Option<Rule>
    ensures { result ≡ first_broken (edge_judgements (asked brief.now) edge.now) }
{
    if edge.down == is_down(brief, edge.place) {
        return Some(Rule::Held);
    }
    match breaks_dwell(brief, edge) {
        Some(rule) => Some(rule),
        None => breaks_density(brief, edge),
    }
}

/// The first rule of edges that an event breaks.
fn broken_by_key(brief: &Brief, event: &Event) -> Option<Rule>
    ensures { result ≡ first_broken (key_judgements (asked brief.now) event.now) }
{
    match event {
        Event::EdgeOf(edge) => broken_by_edge(brief, edge),
        _ => None,
    }
}

/// Whether it would be one event too many.
fn is_too_many(brief: &Brief, event: &Event) -> bool
    ensures { result ≡ is_too_many (asked brief.now) event.now }
{
    match event {
        Event::End(_) => false,
        _ => brief.count() >= MOST_EVENTS,
    }
}

/// The first rule, from the fourth on, that an event breaks.
pub(crate) fn broken_by(brief: &Brief, event: &Event) -> Option<Rule>
    ensures { result ≡ first_broken (judgements (asked brief.now) event.now) }
{
    let stamp = event.stamp();
    if stamp < brief.stamp() {
        return Some(Rule::Order(brief.stamp(), stamp));
    }
    let rule = broken_by_key(brief, event);
    if rule.is_some() {
        return rule;
    }
    if brief.end().is_some() {
        return Some(Rule::AfterEnd);
    }
    if stamp > LAST_STAMP {
        return Some(Rule::Late(stamp));
    }
    is_too_many(brief, event).then_some(Rule::TooMany)
}

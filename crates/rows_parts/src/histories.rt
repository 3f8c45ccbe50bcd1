//! The events of a key file for the sample layout, from both of its readers.

use board_terms::{Edge, HostAct, HostEvent};
use key_file::{Feed, ListFeed, check_history, read_history};
use layout_reader::us84_layout;
use std::test::Fail;

/// A key file.
const TEXT: &[u8] =
    b" \t0\tpress a \r\n\n # a comment\n2240 release  a\n3000 write60 eD\n10ms take\n10ms flip 7\n10ms end\n\n#\n";

/// The stamps of its edges, and whether the key goes down: column 3, row 5 is place 29.
static EDGES: [(u64, u8, bool); 2] = [(0, 29, true), (2240, 29, false)];

/// The stamps of its events, and what the host does.
static HOST: [(u64, HostAct); 3] = [
    (3000, HostAct::Write60(0xed)),
    (4000, HostAct::Take),
    (4000, HostAct::Flip(7)),
];

/// Whether this is an edge of the table.
fn is_edge(edge: Option<Edge>, row: (u64, u8, bool)) -> bool {
    match edge {
        Some(edge) => (edge.stamp, edge.place.number(), edge.down) == row,
        None => false,
    }
}

/// Whether a feed hands out the events of the tables, and then none.
fn hands_out<F: Feed>(feed: &mut F) -> bool {
    for row in &EDGES {
        if !is_edge(feed.next_edge(), *row) {
            return false;
        }
    }
    for (stamp, act) in &HOST {
        let event = HostEvent {
            stamp: *stamp,
            act: *act,
        };
        if feed.next_host() != Some(event) {
            return false;
        }
    }
    feed.next_edge().is_none() && feed.next_host().is_none() && feed.end() == 4000
}

#[test]
fn a_history_has_the_events_of_its_lines(rt: HostRuntime) -> Result<(), Fail> {
    let layout = us84_layout(rt.alloc())?;
    let history = read_history(rt.alloc(), TEXT, &layout)?;
    assert!(rt; hands_out(&mut ListFeed::new(&history)));
    assert!(rt; history.edges().len() == 2 && history.host().len() == 3);
    match check_history(TEXT, &layout) {
        Ok(mut feed) => assert!(rt; hands_out(&mut feed)),
        Err(_) => panic!(rt; "a fault"),
    }
    Ok(())
}

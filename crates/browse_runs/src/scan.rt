//! The plain scan: every pick of a book, sorted, and what a browse must then answer.

use book::book::Book;
use book::place::Entry;
use browse::answer::{Answer, Counts, Found, Row};
use geometry::bounds::Bounds;
use geometry::choice::Choice;
use plain_distance::distance::plain_distance;
use search::turn::Call;
use std::alloc::{AllocError, Global};

/// All picks in their order, how far each node is, and how far a browse of them has come.
#[derive(Drop)]
pub struct Scan {
    ranking: Vec<Row>,
    nodes: Vec<u64>,
    told: usize,
    /// The greatest distance told or limit answered none.
    reach: Option<u64>,
}

/// All entries of a book, whatever the order of its nodes, each with the level of its node.
pub(crate) fn entries<B: Book>(heap: Global, book: &B) -> Result<Vec<(u8, Entry)>, AllocError> {
    let mut entries = Vec::new(heap);
    for node in 0..book.node_count() {
        let level = book.level(node);
        let places = 0..book.place_count(node);
        entries.extend(
            places
                .filter_map(|index| book.place(node, index))
                .map(|entry| (level, entry)),
        )?;
    }
    Ok(entries)
}

impl Scan {
    /// Goes through all nodes of a book, then sorts.
    pub(crate) fn of<B: Book>(
        heap: Global,
        book: &B,
        choice: Choice,
        query: &Bounds,
    ) -> Result<Scan, AllocError> {
        let mut ranking = Vec::new(heap);
        // the root
        let mut nodes = vec![in heap; 0u64]?;
        for (level, entry) in entries(heap, book)?.iter() {
            let distance = plain_distance(choice, query, &entry.bounds);
            if *level > 0 {
                nodes.push(distance)?;
            } else {
                ranking.push(Row {
                    pick: entry.target,
                    distance,
                    top: entry.bounds.level.high,
                })?;
            }
        }
        ranking.sort_by_key(|row| (row.distance, row.pick))?;
        Ok(Scan {
            ranking,
            nodes,
            told: 0,
            reach: None,
        })
    }

    pub(crate) fn picks(&self) -> usize {
        self.ranking.len()
    }

    /// The distance of the pick at this place of the ranking.
    pub(crate) fn distance_at(&self, place: usize) -> u64 {
        self.ranking.get(place).map_or(u64::MAX, |row| row.distance)
    }

    // The nodes within reach.
    fn opened(&self) -> u16 {
        let reached = self
            .nodes
            .iter()
            .filter(|distance| Some(**distance) <= self.reach);
        u16::try_from(reached.count()).unwrap_or(u16::MAX)
    }

    /// What `next` must find.
    pub(crate) fn next(&mut self, limit: u64) -> Found {
        let row = self
            .ranking
            .get(self.told)
            .copied()
            .filter(|row| row.distance <= limit);
        if row.is_some() {
            self.told = self.told.saturating_add(1);
        }
        let reached = row.map_or(limit, |row| row.distance);
        self.reach = self.reach.max(Some(reached));
        Found {
            row,
            opened: self.opened(),
        }
    }

    /// What `report` must count.
    pub(crate) fn report(&self) -> Counts {
        Counts {
            told: u16::try_from(self.told).unwrap_or(u16::MAX),
            opened: self.opened(),
        }
    }

    /// What a turn must be answered.
    pub(crate) fn answer(&mut self, call: Call) -> Answer {
        match call {
            Call::Next(limit) => Answer::Next(Ok(self.next(limit))),
            Call::Report => Answer::Report(self.report()),
        }
    }
}

//! Packages in an order in which each stands behind those that it depends on.

use crate::node::Node;
use def_ids::Edition;
use indexmap::IndexMap;
use std::alloc::{AllocError, Global};

/// A crate that is to be read.
#[derive(Drop)]
pub struct Package {
    /// Its name as code has it.
    pub name: String,
    /// The path of its root file.
    pub root: String,
    pub edition: Edition,
    pub is_proc_macro: bool,
    /// The features that are on.
    pub features: Vec<String>,
    /// The crates that it depends on, by their names there, and their places in the order.
    pub dependencies: Vec<(String, usize)>,
    /// The names of crates that it may use and that are not given.
    pub absent: Vec<String>,
}

/// How far a package is ordered.
#[derive(Clone, Copy, PartialEq, Eq)]
enum State {
    New,
    /// Those that it depends on are being ordered.
    Open,
    /// Its place.
    Done(usize),
}

/// The state of a package.
fn state_of(states: &[State], number: usize) -> State {
    states.get(number).copied().unwrap_or(State::Open)
}

/// The numbers of packages, each behind those that it depends on, from one on. A circle is cut.
fn numbers_in_order(alloc: Global, nodes: &[Node], first: usize) -> Result<Vec<usize>, AllocError> {
    let mut order = Vec::new(alloc);
    let mut states = Vec::new(alloc);
    for _ in nodes {
        states.push(State::New)?;
    }
    let mut open: Vec<(usize, usize)> = Vec::new(alloc);
    open.push((first, 0))?;
    for _ in 0..u64::MAX {
        let Some((number, at)) = open.pop() else {
            break;
        };
        let Some(node) = nodes.get(number) else {
            continue;
        };
        if let Some((_, next)) = node.dependencies.get(at) {
            open.push((number, at.saturating_add(1)))?;
            if state_of(states.as_slice(), *next) == State::New {
                open.push((*next, 0))?;
            }
            if let Some(state) = states.get_mut(number) {
                *state = State::Open;
            }
        } else if let Some(state) = states.get_mut(number) {
            if !matches!(state, State::Done(_)) {
                *state = State::Done(order.len());
                order.push(number)?;
            }
        }
    }
    Ok(order)
}

/// The places of numbers in a list of them.
fn places(alloc: Global, order: &[usize]) -> Result<IndexMap<usize, usize>, AllocError> {
    let mut places = IndexMap::new(alloc);
    for (place, number) in order.iter().enumerate() {
        places.insert(*number, place)?;
    }
    Ok(places)
}

/// The crate of a package at its place. What stands behind it, or nowhere, is not given to it.
fn package_of(
    node: &Node,
    places: &IndexMap<usize, usize>,
    place: usize,
    alloc: Global,
) -> Result<Package, AllocError> {
    let mut dependencies = Vec::new(alloc);
    let mut absent = Vec::new(alloc);
    for (name, number) in node.dependencies.iter() {
        match places.get(number) {
            Some(at) if *at < place => dependencies.push((name.clone()?, *at))?,
            _ => absent.push(name.clone()?)?,
        }
    }
    for name in node.absent.iter() {
        absent.push(name.clone()?)?;
    }
    let mut features = Vec::new(alloc);
    for feature in node.features.iter() {
        features.push(feature.clone()?)?;
    }
    Ok(Package {
        name: node.name.clone()?,
        root: node.root.clone()?,
        edition: node.edition,
        is_proc_macro: node.is_proc_macro,
        features,
        dependencies,
        absent,
    })
}

/// The crates of packages, each behind those that it depends on; the first package is the last one.
pub(crate) fn in_order(alloc: Global, nodes: &[Node]) -> Result<Vec<Package>, AllocError> {
    let order = numbers_in_order(alloc, nodes, 0)?;
    let places = places(alloc, order.as_slice())?;
    let mut packages = Vec::new(alloc);
    for (place, number) in order.iter().enumerate() {
        if let Some(node) = nodes.get(*number) {
            packages.push(package_of(node, &places, place, alloc)?)?;
        }
    }
    Ok(packages)
}

//! Sequences in pieces, so that what comes or goes moves the items of one piece only.

ghost use Rattle.std.specs.Prelude.{◌≡◌, ◌+◌, ◌-◌, ◌^◌, ◌<◌, ◌≤◌, ◌∷◌, ◌++◌, [], ℕ, true, min, length, drop, vec_len, insert, OnOk, IfOk};
ghost use Rattle.std.specs.Bool.{OnTrue};
ghost use Rattle.std.specs.List.{remove};
ghost use Rattle.std.specs.Vec.{vec_capacity};
ghost use Rattle.ctl_store.specs.Inside.HeldPieces.{most_in_piece, least_room, joined, length_at, room_in, room_at, stands_at, place_of_spot, IsSpot, IsSpotOrEnd, IsReadyPiece, ArePieces, AreNoMore, AreReady, HasRoomForOne, free_at_end, room_of_all, room_of_last, room_at_end, inserted_at};
ghost use Rattle.ctl_store.specs.Places.{replace_at};

use crate::fronts::Placed;
use crate::slots::Slot;
use ctl_stanza::Stanza;
use std::alloc::{AllocError, Global};
use std::marker::Model;

/// How many items a piece holds at most.
pub(crate) const MOST: usize = 64;

// How many each piece has room for at least.
const LEAST: usize = 2;

// Neighbouring pieces that have no more items together are joined, so that some can come before the piece is split again.
const JOINED: usize = 32;

/// Where an item stands: the place of its piece, and its place in the piece.
#[derive(Clone, Copy)]
pub(crate) struct Spot {
    pub(crate) piece: usize,
    pub(crate) at: usize,
}

/// Whether an item stands at a spot.
pub(crate) fn is_spot<T>(pieces: &[Vec<T>], spot: Spot) -> bool
    ensures { OnTrue result (IsSpot pieces.now spot) }
{
    spot.piece < pieces.len() && spot.at < pieces[spot.piece].len()
}

/// A sequence in pieces of at most 64 items, none of which is empty. The pieces of a short sequence are small. A contract sees the
/// pieces, and the empty ones for what comes.
#[derive(Drop)]
pub(crate) struct Pieces<T> {
    pieces: Vec<Vec<T>>,
    // Empty pieces for what comes, the last first. There are some only while an edit is prepared.
    ready: Vec<Vec<T>>,
}

impl<T> Model for Pieces<T> {
    ghost use Rattle.ctl_store.specs.Inside.HeldPieces.{InPieces, IsFit};

    ghost Value = { InPieces T };

    ghost view = { λ p. record { pieces = p.pieces.items; ready = p.ready.items } };

    ghost invariant = { λ p. IsFit p.pieces p.ready };
}

impl<T: Drop> Pieces<T> {
    /// No items. It takes no memory.
    pub(crate) fn new(alloc: Global) -> Pieces<T>
        ensures { result.pieces ≡ [] }
    {
        Pieces {
            pieces: Vec::new(alloc),
            ready: Vec::new(alloc),
        }
    }

    /// No items, with the room for so many.
    pub(crate) fn with_capacity(alloc: Global, items: usize) -> Result<Pieces<T>, AllocError>
        ensures none { IfOk result (λ it. it.pieces ≡ []) }
        ensures room { IfOk result (λ it. items ≤ room_at_end it) }
    {
        let ready = ready_pieces(alloc, items)?;
        let mut pieces = Vec::new(alloc);
        pieces.reserve_exact(ready.len())?;
        Ok(Pieces { pieces, ready })
    }

    /// The pieces, in order.
    pub(crate) fn as_slice(&self) -> &[Vec<T>]
        ensures same { result.now ≡ self.now.pieces }
        ensures pieces { ArePieces result.now }
    {
        &self.pieces
    }

    /// Makes the room for one item more, wherever it comes.
    pub(crate) fn reserve_one(&mut self, alloc: Global) -> Result<(), AllocError>
        ensures items { self.new.pieces ≡ self.old.pieces }
        ensures room { OnOk result (HasRoomForOne self.new) }
    {
        let room = room_for(&self.pieces);
        if room <= room_of_last(&self.ready) {
            return Ok(());
        }
        self.ready.clear();
        self.pieces.reserve(1)?;
        self.ready.push(Vec::with_capacity(alloc, room)?)?;
        Ok(())
    }

    /// The room that was made and not taken goes.
    pub(crate) fn forget_room(&mut self)
        ensures { self.new.pieces ≡ self.old.pieces }
    {
        self.ready.clear();
        self.ready.shrink_to_fit();
    }

    /// Adds a last item, for which there is room.
    pub(crate) fn push(&mut self, item: T)
        requires { 0 < room_at_end self.old }
        ensures items { joined self.new.pieces ≡ joined self.old.pieces ++ item ∷ [] }
        ensures room { room_at_end self.new + 1 ≡ room_at_end self.old }
    {
        let count = self.pieces.len();
        if free_in_last(&self.pieces) == 0 {
            let mut piece = take_ready(&mut self.ready);
            insert_in(&mut piece, 0, item);
            insert_piece(&mut self.pieces, count, piece);
        } else {
            let piece = count - 1;
            let at = self.pieces[piece].len();
            insert_within(&mut self.pieces, Spot { piece, at }, item);
        }
    }

    /// Adds these items last. There is room for them.
    pub(crate) fn extend(&mut self, items: Vec<T>)
        requires { vec_len items ≤ room_at_end self.old }
        ensures { joined self.new.pieces ≡ joined self.old.pieces ++ items.items }
    {
        for item in items {
            self.push(item);
        }
    }

    /// Takes an item out. A piece that is empty then goes, with its memory, and one with few items is joined with a neighbour.
    pub(crate) fn remove(&mut self, spot: Spot)
        requires { IsSpot self.old.pieces spot }
        ensures { joined self.new.pieces ≡ remove (joined self.old.pieces) (place_of_spot self.old.pieces spot) }
    {
        if self.pieces[spot.piece].len() > 1 {
            remove_within(&mut self.pieces, spot);
            join_around(&mut self.pieces, spot.piece);
        } else {
            let _ = self.pieces.remove(spot.piece);
        }
        shrink_only(&mut self.pieces);
        shrink_pieces(&mut self.pieces, self.ready.len());
    }
}

impl Pieces<Placed> {
    /// Adds an item in the place of that of a spot, which moves up with those after it. There is room for it.
    pub(crate) fn insert(&mut self, spot: Spot, item: Placed)
        requires spot { IsSpotOrEnd self.old.pieces spot }
        requires room { HasRoomForOne self.old }
        ensures { joined self.new.pieces ≡ inserted_at self.old.pieces spot item }
    {
        if spot.piece >= self.pieces.len() {
            self.push(item);
        } else if free_in(&self.pieces[spot.piece]) > 0 {
            insert_within(&mut self.pieces, spot, item);
        } else {
            let half = self.pieces[spot.piece].len() / 2;
            split(
                &mut self.pieces,
                spot.piece,
                half,
                take_ready(&mut self.ready),
            );
            insert_within(&mut self.pieces, spot_after_split(spot, half), item);
        }
    }
}

impl Pieces<Slot> {
    /// Puts a stanza in the place of that of a slot.
    pub(crate) fn replace(&mut self, spot: Spot, stanza: Box<Stanza>)
        requires { IsSpot self.old.pieces spot }
        ensures { joined self.new.pieces ≡ replace_at (joined self.old.pieces) (place_of_spot self.old.pieces spot) stanza.value }
    {
        self.pieces[spot.piece][spot.at].replace(stanza);
    }
}

// Empty pieces for so many items. The one that need not be full is taken last.
fn ready_pieces<T: Drop>(alloc: Global, items: usize) -> Result<Vec<Vec<T>>, AllocError>
    ensures ready { IfOk result (λ ready. AreReady ready.items) }
    ensures room { IfOk result (λ ready. items ≤ room_of_all ready.items) }
{
    let mut ready = Vec::with_capacity(alloc, items.div_ceil(MOST))?;
    let mut room: usize = 0;
    while room < items {
        let left = (items - room) % MOST;
        let more = if left == 0 { MOST } else { left };
        // What comes later fills the last piece of a long list.
        let capacity = items.min(MOST).max(more).max(LEAST);
        ready.push(Vec::with_capacity(alloc, capacity)?)?;
        room = room.saturating_add(more);
    }
    Ok(ready)
}

// How large a piece is to be that has room for an item wherever it comes.
fn room_for<T: Drop>(pieces: &[Vec<T>]) -> usize
    requires { ArePieces pieces.now }
    ensures room { min most_in_piece (length (joined pieces.now) + 1) ≤ result }
    ensures least { least_room ≤ result }
    ensures most { result ≤ most_in_piece }
{
    let mut items = 0;
    let mut left = pieces;
    'pieces: while let Some((piece, rest)) = left.split_first() {
        items += piece.len();
        if items >= MOST {
            return MOST;
        }
        left = rest;
    }
    (items + 1).max(LEAST)
}

// How many items the piece that is taken first has room for.
fn room_of_last<T>(ready: &[Vec<T>]) -> usize
    ensures { result ≡ room_of_last ready.now }
{
    match ready.last() {
        Some(piece) => MOST.min(piece.capacity()),
        None => 0,
    }
}

// An empty piece, of which there is one.
fn take_ready<T: Drop>(ready: &mut Vec<Vec<T>>) -> Vec<T>
    requires some { 0 < vec_len ready.old }
    requires ready { AreReady ready.old.items }
    ensures ready { AreReady ready.new.items }
    ensures len { vec_len ready.new + 1 ≡ vec_len ready.old }
    ensures piece { IsReadyPiece result }
    ensures items { ready.old.items ≡ ready.new.items ++ result ∷ [] }
{
    match ready.pop() {
        Some(piece) => piece,
        None => unreachable!(),
    }
}

// Adds a piece, for which there is room.
fn insert_piece<T: Drop>(pieces: &mut Vec<Vec<T>>, at: usize, piece: Vec<T>)
    requires within { at ≤ vec_len pieces.old }
    requires room { vec_len pieces.old < vec_capacity pieces.old }
    ensures items { pieces.new.items ≡ insert pieces.old.items at piece }
    ensures len { vec_len pieces.new ≡ vec_len pieces.old + 1 }
    ensures capacity { vec_capacity pieces.old ≤ vec_capacity pieces.new }
{
    match pieces.insert(at, piece) {
        Ok(()) => {}
        Err(_) => unreachable!(),
    }
}

// Puts an item into a piece, which has room for it.
fn insert_in<T: Drop>(piece: &mut Vec<T>, at: usize, item: T)
    requires within { at ≤ vec_len piece.old }
    requires room { vec_len piece.old < vec_capacity piece.old }
    ensures items { piece.new.items ≡ insert piece.old.items at item }
    ensures len { vec_len piece.new ≡ vec_len piece.old + 1 }
    ensures capacity { vec_capacity piece.new ≡ vec_capacity piece.old }
{
    match piece.insert(at, item) {
        Ok(()) => {}
        Err(_) => unreachable!(),
    }
}

// Puts an item into the piece of a spot, which has room for it.
fn insert_within<T: Drop>(pieces: &mut Vec<Vec<T>>, spot: Spot, item: T)
    requires pieces { ArePieces pieces.old.items }
    requires piece { spot.piece < vec_len pieces.old }
    requires at { spot.at ≤ length_at pieces.old.items spot.piece }
    requires few { length_at pieces.old.items spot.piece < room_at pieces.old.items spot.piece }
    ensures pieces { ArePieces pieces.new.items }
    ensures len { vec_len pieces.new ≡ vec_len pieces.old }
    ensures capacity { vec_capacity pieces.new ≡ vec_capacity pieces.old }
    ensures length { length_at pieces.new.items spot.piece ≡ length_at pieces.old.items spot.piece + 1 }
    ensures room { room_at pieces.new.items spot.piece ≡ room_at pieces.old.items spot.piece }
    ensures items { joined pieces.new.items ≡ insert (joined pieces.old.items) (place_of_spot pieces.old.items spot) item }
{
    insert_in(&mut pieces[spot.piece], spot.at, item);
}

// How many items more a piece takes.
fn free_in<T>(piece: &Vec<T>) -> usize
    ensures { result ≡ room_in piece.now - vec_len piece.now }
{
    MOST.min(piece.capacity()).saturating_sub(piece.len())
}

// How many items more the last piece takes.
fn free_in_last<T>(pieces: &[Vec<T>]) -> usize
    ensures { result ≡ free_at_end pieces.now }
{
    match pieces.last() {
        Some(last) => free_in(last),
        None => 0,
    }
}

// Whether a piece takes the items of the one behind it, and they are few.
fn takes_next<T: Drop>(pieces: &[Vec<T>], at: usize) -> bool
    requires pieces { ArePieces pieces.now }
    requires within { at < length pieces.now }
    ensures next { result ≡ true → at + 1 < length pieces.now }
    ensures room { result ≡ true → length_at pieces.now at + length_at pieces.now (at + 1) ≤ room_at pieces.now at }
{
    if at + 1 >= pieces.len() {
        return false;
    }
    let piece = &pieces[at];
    let next = &pieces[at + 1];
    next.len() <= free_in(piece) && next.len() <= JOINED.saturating_sub(piece.len())
}

// Moves the items of the next piece into a piece, which has room for them.
fn join_next<T: Drop>(pieces: &mut Vec<Vec<T>>, at: usize)
    requires pieces { ArePieces pieces.old.items }
    requires next { at + 1 < vec_len pieces.old }
    requires room { length_at pieces.old.items at + length_at pieces.old.items (at + 1) ≤ room_at pieces.old.items at }
    ensures kept { AreNoMore pieces.old pieces.new }
    ensures items { joined pieces.new.items ≡ joined pieces.old.items }
{
    let mut next = pieces.remove(at + 1);
    match pieces[at].append(&mut next) {
        Ok(()) => {}
        Err(_) => unreachable!(),
    }
}

// Joins a piece with a neighbour, if there are few items in both.
fn join_around<T: Drop>(pieces: &mut Vec<Vec<T>>, at: usize)
    requires pieces { ArePieces pieces.old.items }
    requires within { at < vec_len pieces.old }
    ensures kept { AreNoMore pieces.old pieces.new }
    ensures items { joined pieces.new.items ≡ joined pieces.old.items }
{
    if takes_next(pieces, at) {
        join_next(pieces, at);
    } else if at > 0 && takes_next(pieces, at - 1) {
        join_next(pieces, at - 1);
    }
}

// Takes an item out of its piece, in which there are others.
fn remove_within<T: Drop>(pieces: &mut Vec<Vec<T>>, spot: Spot)
    requires pieces { ArePieces pieces.old.items }
    requires spot { IsSpot pieces.old.items spot }
    requires others { 1 < length_at pieces.old.items spot.piece }
    ensures kept { AreNoMore pieces.old pieces.new }
    ensures len { vec_len pieces.new ≡ vec_len pieces.old }
    ensures items { joined pieces.new.items ≡ remove (joined pieces.old.items) (place_of_spot pieces.old.items spot) }
{
    let _ = pieces[spot.piece].remove(spot.at);
}

// Gives back the memory of an only piece that has room for many more.
fn shrink_only<T: Drop>(pieces: &mut Vec<Vec<T>>)
    requires { ArePieces pieces.old.items }
    ensures kept { AreNoMore pieces.old pieces.new }
    ensures items { joined pieces.new.items ≡ joined pieces.old.items }
{
    if pieces.len() == 1 {
        let wanted = pieces[0].len().saturating_mul(2).max(LEAST);
        if wanted <= pieces[0].capacity() / 2 {
            pieces[0].shrink_to(wanted);
        }
    }
}

// Gives back the memory for many more pieces than there are, but for so many.
fn shrink_pieces<T: Drop>(pieces: &mut Vec<Vec<T>>, more: usize)
    requires { vec_len pieces.old + more ≤ vec_capacity pieces.old }
    ensures items { pieces.new.items ≡ pieces.old.items }
    ensures len { vec_len pieces.new ≡ vec_len pieces.old }
    ensures room { vec_len pieces.new + more ≤ vec_capacity pieces.new }
{
    let wanted = pieces.len().saturating_mul(2).saturating_add(more);
    if wanted <= pieces.capacity() / 2 {
        pieces.shrink_to(wanted);
    }
}

// The items of a piece from a place on.
fn upper_part(piece: &[Placed], half: usize) -> &[Placed]
    requires { half ≤ length piece.now }
    ensures items { result.now ≡ drop half piece.now }
    ensures len { length result.now + half ≡ length piece.now }
{
    &piece[half..]
}

// Moves the items of a piece from a place on into another, which comes behind it.
fn split(pieces: &mut Vec<Vec<Placed>>, at: usize, half: usize, mut upper: Vec<Placed>)
    requires pieces { ArePieces pieces.old.items }
    requires within { at < vec_len pieces.old }
    requires lower { 0 < half }
    requires some { half < length_at pieces.old.items at }
    requires upper { IsReadyPiece upper }
    requires fits { length_at pieces.old.items at ≤ room_in upper }
    requires room { vec_len pieces.old < vec_capacity pieces.old }
    ensures pieces { ArePieces pieces.new.items }
    ensures len { vec_len pieces.new ≡ vec_len pieces.old + 1 }
    ensures capacity { vec_capacity pieces.old ≤ vec_capacity pieces.new }
    ensures items { joined pieces.new.items ≡ joined pieces.old.items }
    ensures lower_length { length_at pieces.new.items at ≡ half }
    ensures upper_length { length_at pieces.new.items (at + 1) + half ≡ length_at pieces.old.items at }
    ensures lower_room { room_at pieces.new.items at ≡ room_at pieces.old.items at }
    ensures upper_room { length_at pieces.old.items at ≤ room_at pieces.new.items (at + 1) }
    ensures lower { (j : ℕ) → stands_at pieces.new.items at j ≡ stands_at pieces.old.items at j }
    ensures upper { (j : ℕ) → stands_at pieces.new.items (at + 1) j ≡ stands_at pieces.old.items at (half + j) }
{
    match upper.extend_from_slice(upper_part(&pieces[at], half)) {
        Ok(()) => {}
        Err(_) => unreachable!(),
    }
    pieces[at].truncate(half);
    insert_piece(pieces, at + 1, upper);
}

// The spot, after its piece was split at a place, of what came at a place of it.
fn spot_after_split(spot: Spot, half: usize) -> Spot
    requires { spot.piece + 1 < 2 ^ 64 }
    ensures lower { spot.at ≤ half → result ≡ spot }
    ensures upper { half < spot.at → result ≡ record { piece = spot.piece + 1; at = spot.at - half } }
{
    if spot.at <= half {
        spot
    } else {
        Spot {
            piece: spot.piece + 1,
            at: spot.at - half,
        }
    }
}

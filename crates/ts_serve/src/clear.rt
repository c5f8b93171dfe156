//! How places are cleared that nobody else has: what is left of each handler that has ended, or waits, is
//! handed to the net.

ghost use Rattle.std.specs.Prelude.{◌≡◌, ◌<◌, ℕ, length, OnOk};
ghost use Rattle.ts_serve.specs.Balance.{HasAll, HasNoMore, KeepsBalance};
ghost use Rattle.ts_serve.specs.Acceptor.{IsNotAsked};
ghost use Rattle.ts_serve.specs.Closing.{FitBehindFrom, FitsBehind, KeepsSessions};
ghost use Rattle.ts_serve.specs.Starting.{OthersStay};
ghost use Rattle.ts_serve.specs.TakingOut.{AreCleared, IsCleared};
ghost use Rattle.ts_serve.specs.Tenants.{FitPlaces, FitsTerms};

use crate::acceptor::PLACES;
use crate::connection::Connection;
use crate::place::PlaceGroup;
use crate::retire::{hand_over, is_running, may_hand_over};
use crate::source::ClientSource;
use crate::tenant::Handler;
use std::collections::VecDeque;
use ts_group::World;
use ts_link::NoMemory;

// The last turn that a group can have: it is not known who was left in a place then.
const LAST_TURN: u64 = 1 << 63;

/// Hands what is left of the client in the place k to the net, if its handler has ended or may wait for it
/// without end, and the place is free then. The group is that of the place. At want of memory, or where the
/// handler runs still, it is dropped. (That another than its handler lives there, or that it was left there
/// in the last turn that a group can have, does not come, and is answered as want of memory.)
pub fn clear_place<
    N: ClientSource,
    W: Handler<N::Client, N::Origin> + Drop,
    P: World<Question = W::Question, Reply = W::Reply> + Drop,
>(net: &mut N, row: &mut Vec<Connection>, k: u32, group: PlaceGroup<W, P>) -> Result<(), NoMemory>
    requires place { k < length row.old.items }
    ensures row { length row.new.items ≡ length row.old.items }
    ensures balance { KeepsBalance N.tells W.is_done
        (λ terms. FitsTerms W.fits W.keeps W.sound P.fits P.sound P.only_asked P.is_first terms group)
        row.old.items (N.seen net.old) row.new.items (N.seen net.new) }
    ensures sessions { KeepsSessions N.tells W.behind W.is_done W.is_note
        (λ terms. FitsBehind W.fits W.keeps W.sound P.fits P.sound P.only_asked P.is_first W.behind terms
        k group row.old.items (N.seen net.old))
        row.old.items (N.seen net.old) row.new.items (N.seen net.new) }
    ensures net { IsNotAsked (N.seen net.old) (N.seen net.new)
        × (HasNoMore row.old.items (N.seen net.old) → HasNoMore row.new.items (N.seen net.new)) }
    ensures others { OthersStay k row.old.items row.new.items }
    ensures cleared { OnOk result (IsCleared W.whose_of W.is_ended W.may_wait k group
        row.old.items row.new.items) }
    ensures all { OnOk result (HasAll row.old.items (N.seen net.old)
        → HasAll row.new.items (N.seen net.new)) }
{
    let Connection::Accepted { whose, made, .. } = row[k as usize] else {
        return Ok(());
    };
    if made >= LAST_TURN {
        return Err(NoMemory);
    }
    if may_hand_over(&group, whose, made) {
        hand_over(net, whose, group)?;
        row[k as usize] = Connection::Free;
        return Ok(());
    }
    if !is_running(&group, whose) {
        return Err(NoMemory);
    }
    Ok(())
}

/// Hands what is left of each client that is in the row, and whose handler has ended or may wait for it
/// without end, to the net. The groups are those of a server in their order, which nobody else has; they are
/// dropped. Where memory lacks for what is left of one, that is dropped too, and the answer says so.
pub fn clear_places<
    N: ClientSource,
    W: Handler<N::Client, N::Origin> + Drop,
    P: World<Question = W::Question, Reply = W::Reply> + Drop,
>(net: &mut N, row: &mut Vec<Connection>, groups: Vec<PlaceGroup<W, P>>) -> Result<(), NoMemory>
    requires places { length row.old.items ≡ PLACES }
    ensures row { length row.new.items ≡ PLACES }
    ensures balance { KeepsBalance N.tells W.is_done
        (λ terms. FitPlaces W.fits W.keeps W.sound P.fits P.sound P.only_asked P.is_first terms groups.items)
        row.old.items (N.seen net.old) row.new.items (N.seen net.new) }
    ensures sessions { KeepsSessions N.tells W.behind W.is_done W.is_note
        (λ terms. FitBehindFrom W.fits W.keeps W.sound P.fits P.sound P.only_asked P.is_first W.behind terms
        0 groups.items row.old.items (N.seen net.old))
        row.old.items (N.seen net.old) row.new.items (N.seen net.new) }
    ensures no_more { HasNoMore row.old.items (N.seen net.old) → HasNoMore row.new.items (N.seen net.new) }
    ensures net { IsNotAsked (N.seen net.old) (N.seen net.new) }
    ensures cleared { OnOk result (AreCleared W.whose_of W.is_ended W.may_wait groups.items
        row.old.items row.new.items) }
    ensures all { OnOk result (HasAll row.old.items (N.seen net.old)
        → HasAll row.new.items (N.seen net.new)) }
{
    let mut rest = VecDeque::from_vec(groups);
    let mut cleared = Ok(());
    let mut k = 0;
    'places: while let Some(group) = rest.pop_front() {
        if k == PLACES {
            return cleared;
        }
        if let Err(NoMemory) = clear_place(net, row, k, group) {
            cleared = Err(NoMemory);
        }
        k += 1;
    }
    cleared
}

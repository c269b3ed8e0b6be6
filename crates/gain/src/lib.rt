// Document 01, "Unit gain and standing", in exact i64: gains are signed sums of price differences times lots, and edges are
// compared without division.
#![tactic(auto)]

ghost use Rattle.std.specs.Prelude.{◌≡◌, ◌*◌, pos, ◌*ℤ◌};
ghost use Rattle.std.specs.Int.Signed.{le_z};
ghost use Rattle.rules.specs.Book.{net, net_long};
ghost use Rattle.rules.specs.Standing.{counted_pending, locked_standing, other_standing, standing_at};
ghost use Rattle.gain.specs.Ranges.{AtPrice, Gained, AtEdge, Ranged};

use rules::{Fen, Lots, Position, Rate, Standing, Terms};

// "(S - price) x lots for a long net position, (price - S) x lots for a short one"
pub fn gain_of(long: bool, settlement: Fen, price: Fen, lots: u64) -> i64
    requires { AtPrice settlement price lots }
    ensures { Gained long settlement price lots result }
{
    let s = settlement.0 as i64;
    let p = price.0 as i64;
    let n = lots as i64;
    if long { (s - p) * n } else { (p - s) * n }
}

// "Net position: the larger of K and H less the smaller"
pub fn net_of(position: Position) -> Lots
    ensures { result.0 ≡ net position }
{
    Lots(position.long.0.abs_diff(position.short.0))
}

// "on the larger's side"
pub fn net_long(position: Position) -> bool
    ensures { result ≡ net_long position }
{
    position.short.0 < position.long.0
}

// "Counted pending is the smaller of Q and net."
pub fn counted_pending(position: Position) -> Lots
    ensures { result.0 ≡ counted_pending position }
{
    Lots(position.unfilled.0.min(net_of(position).0))
}

// "total x 100,000 against rate x S x net"
fn reaches(total: i64, edge: Rate, settlement: Fen, net: Lots) -> bool
    requires { AtEdge total edge settlement net }
    ensures { result ≡ le_z (pos (edge.0 * settlement.0 * net.0)) (total *ℤ pos 100_000) }
{
    let limit = edge.0 * settlement.0 * net.0;
    total * 100_000 >= limit as i64
}

// "-total x 100,000 at least L x S x net, and counted pending above 0"
fn locked_standing(terms: Terms, position: Position, total: i64) -> Standing
    requires { Ranged terms position total }
    ensures { result ≡ locked_standing terms position total }
{
    let net = net_of(position);
    let pending = counted_pending(position);
    if reaches(-total, terms.loss, terms.settlement, net) && pending.0 > 0 {
        Standing::Pending
    } else {
        Standing::Neither
    }
}

// "total above 0. Tier 1: total x 100,000 at least U x S x net. Tier 2: not tier 1, but at least V x S x net."
fn other_standing(terms: Terms, position: Position, total: i64) -> Standing
    requires { Ranged terms position total }
    ensures { result ≡ other_standing terms position total }
{
    let net = net_of(position);
    if total <= 0 {
        Standing::Neither
    } else if reaches(total, terms.edge1, terms.settlement, net) {
        Standing::Tier1
    } else if reaches(total, terms.edge2, terms.settlement, net) {
        Standing::Tier2
    } else {
        Standing::Tier3
    }
}

// P, 1, 2, 3 or N. "net on the locked side (long if locked down, short if up)"
pub fn standing_of(terms: Terms, position: Position, total: i64) -> Standing
    requires { Ranged terms position total }
    ensures { result ≡ standing_at terms position total }
{
    let net = net_of(position);
    if net.0 == 0 {
        Standing::Neither
    } else if net_long(position) == terms.down {
        locked_standing(terms, position, total)
    } else {
        other_standing(terms, position, total)
    }
}

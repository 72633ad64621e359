//! What the stock is enough for. The function does nothing: its contract is the law.
ghost use Rattle.std.specs.Prelude.{◌≡◌, ◌≤◌, true, length};
ghost use Rattle.ng_base.specs.Kind.{same_kind};
ghost use Rattle.ng_machine.specs.Stock.{has_kind};
ghost use Rattle.ng_machine.specs.Words.{times};
ghost use Rattle.ng_stock.specs.Stocked.{stocked};

use ng_base::Kind;

/// There is a socket, there is an ether for each of 64 ports, and there are no more boxes than a core takes.
pub fn stock_suffices()
    ensures socket { has_kind stocked Kind.Socket ≡ true }
    ensures ethers { 64 ≤ times (λ kind. same_kind kind Kind.Ether) stocked }
    ensures few { length stocked ≤ 4000000000 }
{}

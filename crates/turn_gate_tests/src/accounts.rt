//! Handles that share an account, with two operations.
ghost use Rattle.std.specs.Prelude.{◌≡◌};

use std::alloc::AllocError;
use std::snapshot::Snapshot;
use std::sync::Wait;
use std::test::Fail;
use turn_gate::{Chronicle, Deed, Gate, GateSeat};

/// A payment into an account.
#[derive(Drop)]
struct Payment {
    by: u32,
    amount: u64,
}

/// An account, with what it opened with.
#[derive(Drop)]
struct Account {
    opening: u64,
    payments: Vec<Payment>,
}

impl Chronicle for Account {
    type Entry = Payment;

    type Origin = u64;

    ghost origin = { λ a. a.opening };

    ghost entries = { λ a. a.payments.items };

    ghost number = { λ p. p.by };
}

/// Pays an amount in.
#[derive(Drop)]
struct Deposit {
    amount: u64,
    seat: Snapshot<GateSeat<Account>>,
}

impl Deed<Account> for Deposit {
    type Out = Result<(), AllocError>;

    ghost origin = { λ d. d.seat.value.origin };

    ghost known = { λ d. d.seat.value.observed };

    ghost relates = { λ _ _ _ _. Unit {0} };

    fn act(self, value: &mut Account, desk: u32) -> Result<(), AllocError> {
        Ok(
            value.payments.push(Payment {
                by: desk,
                amount: self.amount,
            })?,
        )
    }
}

/// Reads the balance, which is no entry.
#[derive(Drop)]
struct ReadBalance {
    seat: Snapshot<GateSeat<Account>>,
}

impl Deed<Account> for ReadBalance {
    type Out = u64;

    ghost origin = { λ d. d.seat.value.origin };

    ghost known = { λ d. d.seat.value.observed };

    ghost relates = { λ _ before _ after. after ≡ before };

    fn act(self, value: &mut Account, desk: u32) -> u64 {
        let _ = desk;
        let mut balance = value.opening;
        for payment in &value.payments {
            balance = balance.wrapping_add(payment.amount);
        }
        balance
    }
}

fn pay<R: Wait>(
    rt: &R,
    gate: &Gate<Account>,
    seat: &mut GateSeat<Account>,
    amount: u64,
) -> Result<(), AllocError>
    requires gate { seat.old.gate ≡ gate.now }
    ensures same { (seat.new.gate ≡ gate.now) × (seat.new.number ≡ seat.old.number) × (seat.new.given ≡ seat.old.given) }
{
    let payment = Deposit {
        amount,
        seat: Snapshot::of(seat),
    };
    gate.turn(rt, seat, payment)
}

fn balance_of<R: Wait>(rt: &R, gate: &Gate<Account>, seat: &mut GateSeat<Account>) -> u64
    requires gate { seat.old.gate ≡ gate.now }
    ensures same { (seat.new.gate ≡ gate.now) × (seat.new.number ≡ seat.old.number) × (seat.new.given ≡ seat.old.given) }
{
    let reading = ReadBalance {
        seat: Snapshot::of(seat),
    };
    gate.turn(rt, seat, reading)
}

fn is_send<T: Send>() {}

fn is_sync<T: Sync>() {}

/// Locks and handles cross threads wherever their value may.
fn cross_threads<V: Chronicle + Send + Drop>() {
    is_send::<Gate<V>>();
    is_sync::<Gate<V>>();
    is_send::<GateSeat<V>>();
}

/// Handles are numbered as they are asked for, an entry bears its handle's number, and a later turn finds it.
#[test]
fn three_handles_share_an_account(rt: HostRuntime) -> Result<(), Fail> {
    cross_threads::<Account>();
    let alloc = rt.alloc();
    let value = Account {
        opening: 7,
        payments: Vec::new(alloc),
    };
    let Ok((gate, mut root)) = Gate::make(alloc, value) else {
        return Err(Fail::new("no memory for the lock"));
    };
    let mut first = gate.seat(alloc, &mut root)?;
    let mut second = gate.seat(alloc, &mut root)?;
    pay(&rt, &gate, &mut first, 5)?;
    pay(&rt, &gate, &mut second, 6)?;
    assert_eq!(rt; balance_of(&rt, &gate, &mut root), 18);
    assert_eq!(rt; (root.number(), first.number(), second.number()), (0, 1, 2));
    assert_eq!(rt; (root.given(), first.given(), second.given()), (2, 0, 0));
    gate.merge(&mut first, second);
    gate.merge(&mut root, first);
    assert_eq!(rt; (root.number(), root.given()), (0, 2));
    let account = gate.close(&rt, root);
    let mut payments = Vec::new(alloc);
    for payment in &account.payments {
        payments.push((payment.by, payment.amount))?;
    }
    assert_eq!(rt; payments.as_slice(), [(1, 5), (2, 6)].as_slice());
    Ok(())
}

//! Steps from record to record, by their origins.

ghost use Rattle.std.specs.Prelude.{◌≡◌, ◌<◌, ℕ};
ghost use Rattle.page_mirror.specs.Mirror.{Mirror, Mirrors};
ghost use Rattle.page_mirror.specs.Steps.{HasOrigin, led, owning};

use crate::heads::{get_next, get_owned, put_next, put_owned};

/// The origin of the record that this one leads to.
pub fn next_of(page: &[u8], at: u16) -> u16
    requires { (m : Mirror) × (h : ℕ) × HasOrigin page.now m h at }
    ensures { (m : Mirror) (h : ℕ) → HasOrigin page.now m h at
        → HasOrigin page.now m (m.next h) result }
{
    get_next(page, at)
}

/// Lets a record lead to another.
pub fn lead(page: &mut [u8], at: u16, to: u16)
    requires { (m : Mirror) × (h : ℕ) × HasOrigin page.old m h at }
    ensures { (m : Mirror) (p q : ℕ) → HasOrigin page.old m p at → HasOrigin page.old m q to
        → Mirrors page.new (led m p q) }
{
    put_next(page, at, to);
}

/// How many records this one owns.
pub fn owns(page: &[u8], at: u16) -> u8
    requires { (m : Mirror) × (h : ℕ) × HasOrigin page.now m h at }
    ensures { (m : Mirror) (h : ℕ) → HasOrigin page.now m h at → result ≡ m.owned h }
{
    get_owned(page, at)
}

/// Lets a record own so many.
pub fn own(page: &mut [u8], at: u16, count: u8)
    requires there { (m : Mirror) × (h : ℕ) × HasOrigin page.old m h at }
    requires small { count < 16 }
    ensures { (m : Mirror) (h : ℕ) → HasOrigin page.old m h at
        → Mirrors page.new (owning m h count) }
{
    put_owned(page, at, count);
}

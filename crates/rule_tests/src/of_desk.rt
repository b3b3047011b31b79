// A desk over a list of numbers.
ghost use Rattle.std.specs.Prelude.{◌≡◌, ◌≤◌, ◌^◌, ◌++◌, ◌∷◌, [], length, MatchBool, true, false};

use crate::check::check;
use desk::{Booked, Desk, Job, Pass};
use std::sync::Wait;
use std::thread::join;

#[derive(Drop)]
struct Numbers {
    all: Vec<u64>,
    ghost room: { length all.items ≤ 2 ^ 62 },
}

impl Booked for Numbers {
    type Entry = u64;

    type Base = ();

    ghost entries = { λ b. b.all.items };

    ghost base = { λ _. tt };

    ghost faults = { λ _. 0 };

    fn length(&self) -> u64 {
        self.all.len() as u64
    }
}

#[derive(Drop)]
struct Append {
    number: u64,
    acted: bool,
}

impl Job<Numbers> for Append {
    type Answer = bool;

    ghost acted = { λ j. j.acted };

    ghost does = { λ j b r j' b'. MatchBool r (b'.all.items ≡ b.all.items ++ j.number ∷ []) (b'.all.items ≡ b.all.items) };

    fn act(&mut self, book: &mut Numbers) -> bool {
        self.acted = true;
        if book.all.len() as u64 == 1 << 62 {
            return false;
        }
        book.all.push(self.number).is_ok()
    }
}

fn add<R: Wait>(rt: &R, desk: &Desk<Numbers>, pass: &mut Pass<Numbers>, number: u64) -> bool
    requires { pass.old.of ≡ desk.now }
    ensures { pass.new.of ≡ pass.old.of }
{
    let mut job = Append {
        number,
        acted: false,
    };
    desk.visit(rt, pass, &mut job)
}

// Appends the number a thousand times, and answers whether it did.
fn add_many<R: Wait>(
    rt: &R,
    desk: &Desk<Numbers>,
    mut pass: Pass<Numbers>,
    number: u64,
) -> (Pass<Numbers>, bool)
    requires { pass.of ≡ desk.now }
    ensures { result.0.of ≡ desk.now }
{
    for _ in 0..1000 {
        if !add(rt, desk, &mut pass, number) {
            return (pass, false);
        }
    }
    (pass, true)
}

fn has_a_thousand(book: &Numbers, number: u64) -> bool {
    let mut count: u64 = 0;
    for n in &book.all {
        if *n == number {
            count = count.saturating_add(1);
        }
    }
    count == 1000
}

#[test]
fn two_threads_share_one_book(rt: HostRuntime) {
    let alloc = rt.alloc();
    let none = Numbers {
        all: Vec::new(alloc),
    };
    let Ok((desk, mut first)) = Desk::open(alloc, none) else {
        panic!(rt; "no memory")
    };
    let Ok(second) = desk.split(&mut first) else {
        panic!(rt; "no memory")
    };
    let (shared, runtime) = (&desk, &rt);
    let ((mut first, sevens), (second, eights)) = join(
        runtime,
        move ||
            requires { first.of ≡ shared.now }
            ensures { result.0.of ≡ shared.entry.now }
        { add_many(runtime, shared, first, 7) },
        move ||
            requires { second.of ≡ shared.now }
            ensures { result.0.of ≡ shared.entry.now }
        { add_many(runtime, shared, second, 8) },
    );
    desk.join(&mut first, second);
    let book = desk.close(&rt, first);
    let holds = has_a_thousand(&book, 7) & has_a_thousand(&book, 8);
    drop(book);
    check(&rt, sevens & eights & holds, "a thousand each");
}

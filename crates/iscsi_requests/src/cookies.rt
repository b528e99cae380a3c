//! The requests that are in being.

ghost use Rattle.std.specs.Prelude.{◌≡◌, ◌+◌, ◌<◌, ◌≤◌, Some, true, false, length, IfOk};
ghost use Rattle.iscsi_requests.specs.Cookies.{AreKnown, cookie_at, entered, has_place, last_cookie, next_place, opened, used_less, used_more, uses_at};

use iscsi_lists::Lists;
use std::alloc::{AllocError, Global};
use std::marker::Model;

/// The list of all requests.
const ALL: usize = 0;

/// A cookie, and how many uses its request has.
#[derive(Clone, Copy)]
pub(crate) struct Counted {
    pub(crate) cookie: u64,
    pub(crate) uses: u32,
}

/// No request.
const NO_COOKIE: Counted = Counted { cookie: 0, uses: 0 };

/// The requests that are in being, each in a place of its own, with a word of its caller's and a count of its uses. A request
/// goes with its last use.
///
/// Each call takes the same time however many requests there are.
pub struct Cookies {
    kept: Lists<Counted>,
}

impl Drop for Cookies {
    fn drop(self) {
        let Cookies { kept: _kept } = self;
    }
}

impl Model for Cookies {
    ghost use Rattle.iscsi_requests.specs.Cookies.{Cookies as CookiesValue};
    ghost use Rattle.iscsi_requests.specs.Kept.{AreCookies, cookies_of};

    ghost Value = { CookiesValue };

    ghost view = { λ c. cookies_of c.kept };

    ghost invariant = { λ c. AreCookies c.kept };
}

impl Cookies {
    /// None yet, with room for so many. It takes all its memory here.
    pub fn with_room(alloc: Global, room: usize) -> Result<Cookies, AllocError>
        requires { room + 3 ≤ 4294967295 }
        ensures { IfOk result (λ c. c ≡ opened room) }
    {
        Ok(Cookies {
            kept: Lists::with_room(alloc, 1, room, NO_COOKIE)?,
        })
    }

    /// What holds of all requests that are in being. It does nothing.
    #[inline(always)]
    pub fn known(&self)
        ensures { AreKnown self.now }
    {
        self.kept.known();
    }

    /// Whether there are as many as there is room for.
    #[inline(always)]
    pub fn is_full(&self) -> bool
        ensures yes { result ≡ true → length self.now.requests ≡ self.now.room }
        ensures no { result ≡ false → length self.now.requests < self.now.room }
    {
        self.kept.known();
        self.kept.is_full()
    }

    /// A request enters with its cookie, and has one use: the place that it has from now on, the one that was freed last.
    #[inline(always)]
    pub fn enter(&mut self, cookie: u64) -> u32
        requires { length self.old.requests < self.old.room }
        ensures place { next_place self.old ≡ Some result }
        ensures state { self.new ≡ entered cookie result self.old }
    {
        self.kept.known();
        self.kept.push_back(ALL, Counted { cookie, uses: 1 })
    }

    /// Whether a request has this place.
    #[inline(always)]
    pub fn has(&self, place: u32) -> bool
        ensures { result ≡ has_place place self.now }
    {
        self.kept.known();
        self.kept.holds(place)
    }

    /// The cookie of the request in this place.
    #[inline(always)]
    pub fn cookie(&self, place: u32) -> u64
        requires { has_place place self.now ≡ true }
        ensures { result ≡ cookie_at place self.now }
    {
        self.kept.known();
        self.kept.at(place).cookie
    }

    /// How many uses the request in this place has.
    #[inline(always)]
    pub fn uses(&self, place: u32) -> u32
        requires { has_place place self.now ≡ true }
        ensures { result ≡ uses_at place self.now }
    {
        self.kept.known();
        self.kept.at(place).uses
    }

    /// The request in this place has one use more.
    pub fn use_more(&mut self, place: u32)
        requires has { has_place place self.old ≡ true }
        requires few { uses_at place self.old < 4294967295 }
        ensures { self.new ≡ used_more place self.old }
    {
        self.kept.known();
        let Counted { cookie, uses } = *self.kept.at(place);
        self.kept.set(
            place,
            Counted {
                cookie,
                uses: uses + 1,
            },
        );
    }

    /// The request in this place has one use less. Where none is left, the request is gone and its place is free: its cookie.
    #[inline(always)]
    pub fn use_less(&mut self, place: u32) -> Option<u64>
        requires { has_place place self.old ≡ true }
        ensures answer { result ≡ last_cookie place self.old }
        ensures state { self.new ≡ used_less place self.old }
    {
        self.kept.known();
        let Counted { cookie, uses } = *self.kept.at(place);
        if uses > 1 {
            self.kept.set(
                place,
                Counted {
                    cookie,
                    uses: uses - 1,
                },
            );
            return None;
        }
        self.kept.remove(place);
        Some(cookie)
    }
}

//! The caches that an access looks in ("Caching in-memory data structures").

ghost use Rattle.std.specs.Prelude.{ℕ, ◌≡◌, Bool, true, false, List, [], Option, Some, None};
ghost use Rattle.iom_ddt.specs.declared.context.Context.{Context};
ghost use Rattle.iom_nested.specs.declared.translation.Hit.{Hit};
ghost use Rattle.iom_cache.specs.Keys.{same_did, same_key};
ghost use Rattle.iom_cache.specs.Places.{find};
ghost use Rattle.iom_cache.specs.declared.key.Key.{Key};
ghost use Rattle.iom_core.specs.Access.{filled_where};
ghost use Rattle.iom_core.specs.State.{context_room, page_room};

use iom_cache::{ContextCache, Key, TransCache};
use iom_ddt::Context;
use iom_nested::Hit;

/// What an access looks its context and its page up in, and fills with what it reads, or doesn't.
pub(crate) trait Caches {
    /// The places of contexts, oldest first.
    ghost contexts: { Self → List (Option (ℕ × Context)) };

    /// The places of translations, oldest first.
    ghost pages: { Self → List (Option (Key × Hit)) };

    /// Whether a fill changes them.
    ghost fills: { Bool };

    /// The context in the live place of a device id.
    fn context(&self, did: u32) -> Option<Context>
        ensures found { result ≡ find (same_did did) (contexts self.now) };

    /// What the live place with a key says.
    fn page(&self, key: &Key) -> Option<Hit>
        ensures found { result ≡ find (same_key key.now) (pages self.now) };

    /// Fills the context of a device id that no live place has.
    fn fill_context(&mut self, did: u32, context: Context)
        requires { find (same_did did) (contexts self.old) ≡ None }
        ensures filled { contexts self.new ≡ filled_where fills context_room (Some (did, context)) (contexts self.old) }
        ensures pages { pages self.new ≡ pages self.old };

    /// Fills the page of a key that no live place has.
    fn fill_page(&mut self, key: Key, hit: Hit)
        requires { find (same_key key) (pages self.old) ≡ None }
        ensures filled { pages self.new ≡ filled_where fills page_room (Some (key, hit)) (pages self.old) }
        ensures contexts { contexts self.new ≡ contexts self.old };
}

/// The caches of the machine.
#[derive(Drop)]
pub struct Lines {
    /// The context cache: in the standard the DDTC.
    pub contexts: ContextCache,
    /// The translation cache: in the standard the IOTLB.
    pub pages: TransCache,
}

/// Both caches, to be looked at only.
#[derive(Drop)]
pub struct Looking<'a>(pub &'a Lines);

/// No caches: each look-up finds nothing, and fills are lost.
#[derive(Drop)]
pub struct Nothing;

impl Caches for Lines {
    ghost use Rattle.std.specs.Prelude.{true};

    ghost contexts = { λ lines. lines.contexts };

    ghost pages = { λ lines. lines.pages };

    ghost fills = { true };

    #[inline(always)]
    fn context(&self, did: u32) -> Option<Context> {
        self.contexts.find(did)
    }

    #[inline(always)]
    fn page(&self, key: &Key) -> Option<Hit> {
        self.pages.find(key)
    }

    #[inline(always)]
    fn fill_context(&mut self, did: u32, context: Context) {
        self.contexts.fill(did, context);
    }

    #[inline(always)]
    fn fill_page(&mut self, key: Key, hit: Hit) {
        self.pages.fill(key, hit);
    }
}

impl Caches for Looking<'_> {
    ghost use Rattle.std.specs.Prelude.{false};

    ghost contexts = { λ looking. looking.0.now.contexts };

    ghost pages = { λ looking. looking.0.now.pages };

    ghost fills = { false };

    #[inline(always)]
    fn context(&self, did: u32) -> Option<Context> {
        self.0.contexts.find(did)
    }

    #[inline(always)]
    fn page(&self, key: &Key) -> Option<Hit> {
        self.0.pages.find(key)
    }

    #[inline(always)]
    fn fill_context(&mut self, _did: u32, _context: Context) {}

    #[inline(always)]
    fn fill_page(&mut self, _key: Key, _hit: Hit) {}
}

impl Caches for Nothing {
    ghost use Rattle.std.specs.Prelude.{false, []};

    ghost contexts = { λ nothing. [] };

    ghost pages = { λ nothing. [] };

    ghost fills = { false };

    #[inline(always)]
    fn context(&self, _did: u32) -> Option<Context> {
        None
    }

    #[inline(always)]
    fn page(&self, _key: &Key) -> Option<Hit> {
        None
    }

    #[inline(always)]
    fn fill_context(&mut self, _did: u32, _context: Context) {}

    #[inline(always)]
    fn fill_page(&mut self, _key: Key, _hit: Hit) {}
}

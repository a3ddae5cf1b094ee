// A token for a place (Zanzibar, USENIX ATC 2019, section 2.2).
ghost use Rattle.std.specs.Prelude.{◌≡◌, ◌⊎◌, ◌↔◌, IfOk, IfErr, IsErrOf, MatchOption};
ghost use Rattle.zookie.specs.Zookies.{ArePair, IsNoZookie, IsOfAnotherStore, zookie_text};

use crate::bytes::{bytes_of, zookie_of};
use crate::text::{bytes_of_text, text_of_bytes};
use tuples::Refusal;

/// A place of the log of a store.
#[derive(Clone, Copy, Debug, PartialEq, Eq)]
pub struct Zookie {
    pub store: u64,
    pub place: u64,
}

impl Zookie {
    /// Its text, in the standard alphabet of RFC 4648.
    pub fn encode(&self) -> [u8; 24]
        ensures { result ≡ zookie_text self.now.store self.now.place }
    {
        text_of_bytes(&bytes_of(self))
    }

    /// The place of this store that has the text. It is refused with `BadZookie` if the text is that of no token,
    /// and else with `WrongStore` if it is another store's.
    pub fn decode(text: &[u8], store: u64) -> Result<Zookie, Refusal>
        ensures ok { IfOk result (λ z. (z.store ≡ store) × (text.now ≡ zookie_text z.store z.place)) }
        ensures bad { IsErrOf result Refusal.BadZookie ↔ IsNoZookie text.now }
        ensures other { IsErrOf result Refusal.WrongStore ↔ IsOfAnotherStore store text.now }
        ensures err { IfErr result (λ e. (e ≡ Refusal.BadZookie) ⊎ (e ≡ Refusal.WrongStore)) }
    {
        let Some(zookie) = Zookie::read(text) else {
            return Err(Refusal::BadZookie);
        };
        if zookie.store != store {
            return Err(Refusal::WrongStore);
        }
        Ok(zookie)
    }

    /// The token that has the text, whichever store's it is.
    pub fn read(text: &[u8]) -> Option<Zookie>
        ensures { MatchOption result (IsNoZookie text.now) (λ z. ArePair z.store z.place × (text.now ≡ zookie_text z.store z.place)) }
    {
        let Some(bytes) = bytes_of_text(text) else {
            return None;
        };
        zookie_of(&bytes)
    }
}

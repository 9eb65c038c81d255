//! Reading addresses.
ghost use Rattle.std.specs.Prelude.{◌≡◌};
ghost use Rattle.clap.specs.Walk.{texts};
ghost use Rattle.carbon_words.specs.HostTexts.{address_of, hosts_by};

use crate::hosts::{Hosts, MOST_HOSTS};
use std::net::Ipv4Addr;

// The addresses of texts, of which there are at most 16.
#[tactic(auto, unfolding(crate::specs::HostTexts::hosts_by))]
pub(crate) fn hosts_by(words: &[&str]) -> Option<Hosts>
    ensures { result ≡ hosts_by (texts words.now) }
{
    let count = words.len();
    if MOST_HOSTS < count {
        return None;
    }
    let mut list = [Ipv4Addr::UNSPECIFIED; MOST_HOSTS];
    for index in 0..count {
        list[index] = address_of(words[index])?;
    }
    Some(Hosts { list, count })
}

fn address_of(text: &str) -> Option<Ipv4Addr>
    ensures { result ≡ address_of text.now }
{
    match text.parse::<Ipv4Addr>() {
        Ok(address) => Some(address),
        Err(_) => None,
    }
}

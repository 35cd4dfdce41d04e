//! The digest of a mapping.
ghost use Rattle.std.specs.Prelude.{◌≡◌, ◌++◌};
ghost use Rattle.lost_mapping.specs.Expires.{expires_seen};
ghost use Rattle.lost_digest.specs.Bytes.{bool_bytes, expires_bytes, head_bytes, service_bytes, regions_bytes, rest_bytes, mapping_bytes};
ghost use Rattle.lost_digest.specs.Digest.{Takes, mapping_digest};

use crate::pieces::{feed_bytes, feed_list, feed_option, feed_text};
use lost_mapping::{Expires, Mapping};
use md5::{Digest, Md5};

#[tactic(auto, unfolding(crate::specs::Digest::mapping_digest, crate::specs::Digest::Takes))]
/// The digest of a mapping: the MD5 (RFC 1321) of its bytes, as a number (own rule). It takes no memory.
pub fn mapping_digest(mapping: &Mapping) -> u128
    ensures { result ≡ mapping_digest mapping.now }
{
    let mut hasher = Md5::new();
    feed_mapping(&mut hasher, mapping);
    u128::from_be_bytes(hasher.finalize())
}

#[tactic(auto, using(crate::proofs::Taking::then_takes), unfolding(crate::specs::Bytes::mapping_bytes))]
/// The hasher takes a mapping.
fn feed_mapping(hasher: &mut Md5, mapping: &Mapping)
    ensures { Takes hasher.old hasher.new (mapping_bytes mapping.now) }
{
    feed_head(hasher, mapping);
    feed_service(hasher, mapping);
    feed_regions(hasher, mapping);
    feed_rest(hasher, mapping);
}

#[tactic(auto, using(crate::proofs::Taking::then_takes), unfolding(crate::specs::Bytes::head_bytes))]
/// The hasher takes which mapping it is, and until when it holds.
fn feed_head(hasher: &mut Md5, mapping: &Mapping)
    ensures { Takes hasher.old hasher.new (head_bytes mapping.now) }
{
    feed_text(hasher, mapping.identity().source().text());
    feed_text(hasher, mapping.identity().source_id());
    feed_text(hasher, mapping.stamp().text());
    feed_expires(hasher, mapping.expires());
}

#[tactic(auto, using(crate::proofs::Taking::then_takes))]
/// The hasher takes when a mapping ceases to be live.
fn feed_expires(hasher: &mut Md5, expires: &Expires)
    ensures { Takes hasher.old hasher.new (expires_bytes (expires_seen expires.now)) }
{
    match expires {
        Expires::NoCache => feed_bytes(hasher, &[0]),
        Expires::NoExpiration => feed_bytes(hasher, &[1]),
        Expires::At(stamp) => {
            feed_bytes(hasher, &[2]);
            feed_text(hasher, stamp.text());
        }
    }
}

#[tactic(auto, using(crate::proofs::Taking::then_takes, crate::proofs::Taking::list_bytes_map), unfolding(crate::specs::Bytes::service_bytes))]
/// The hasher takes which service a mapping is of, and how that is reached.
fn feed_service(hasher: &mut Md5, mapping: &Mapping)
    ensures { Takes hasher.old hasher.new (service_bytes mapping.now) }
{
    feed_text(hasher, mapping.service().text());
    feed_list(hasher, mapping.uris());
    feed_option(hasher, mapping.number());
}

#[tactic(auto, using(crate::proofs::Taking::then_takes), unfolding(crate::specs::Bytes::regions_bytes))]
/// The hasher takes where a mapping holds.
fn feed_regions(hasher: &mut Md5, mapping: &Mapping)
    ensures { Takes hasher.old hasher.new (regions_bytes mapping.now) }
{
    feed_list(hasher, mapping.polygons());
    feed_list(hasher, mapping.patterns());
    feed_list(hasher, mapping.token_sets());
}

#[tactic(auto, using(crate::proofs::Taking::then_takes, crate::proofs::Taking::list_bytes_map), unfolding(crate::specs::Bytes::rest_bytes))]
/// The hasher takes whether a mapping is a default, how it is shown, and what names its regions.
fn feed_rest(hasher: &mut Md5, mapping: &Mapping)
    ensures { Takes hasher.old hasher.new (rest_bytes mapping.now) }
{
    feed_bytes(hasher, &[u8::from(mapping.is_default())]);
    feed_list(hasher, mapping.display_names());
    feed_option(hasher, mapping.key());
}

//! What stands in a mapping, as pieces.
use crate::pieces::{Piece, feed_coordinate, feed_list, feed_pair, feed_text};
use lost_civic::CivicPattern;
use lost_geo::{GeoPoint, Polygon};
use lost_mapping::DisplayName;
use lost_profile::{Token, TokenSet};
use md5::Md5;

impl Piece for String {
    ghost use Rattle.std.specs.Prelude.{string_bytes};
    ghost use Rattle.lost_digest.specs.Bytes.{text_bytes};

    ghost bytes = { λ text. text_bytes (string_bytes text) };

    fn feed(&self, hasher: &mut Md5) {
        feed_text(hasher, self.as_str());
    }
}

impl Piece for GeoPoint {
    ghost use Rattle.lost_digest.specs.Bytes.{point_bytes};

    ghost bytes = { point_bytes };

    #[tactic(auto, using(crate::proofs::Taking::then_takes), unfolding(crate::specs::Bytes::point_bytes))]
    fn feed(&self, hasher: &mut Md5) {
        feed_coordinate(hasher, self.lat() as i32);
        feed_coordinate(hasher, self.lon() as i32);
    }
}

impl Piece for Polygon {
    ghost use Rattle.lost_digest.specs.Bytes.{ring_bytes};

    ghost bytes = { ring_bytes };

    fn feed(&self, hasher: &mut Md5) {
        feed_list(hasher, self.positions());
    }
}

impl Piece for (String, String) {
    ghost use Rattle.std.specs.Prelude.{string_bytes};
    ghost use Rattle.lost_digest.specs.Bytes.{pair_bytes};

    ghost bytes = { λ pair. pair_bytes (string_bytes pair.0) (string_bytes pair.1) };

    fn feed(&self, hasher: &mut Md5) {
        feed_pair(hasher, self.0.as_str(), self.1.as_str());
    }
}

impl Piece for CivicPattern {
    ghost use Rattle.lost_digest.specs.Bytes.{pattern_bytes};

    ghost bytes = { pattern_bytes };

    fn feed(&self, hasher: &mut Md5) {
        feed_list(hasher, self.pairs());
    }
}

impl Piece for Token {
    ghost use Rattle.lost_digest.specs.Bytes.{text_bytes};

    ghost bytes = { text_bytes };

    fn feed(&self, hasher: &mut Md5) {
        feed_text(hasher, self.text());
    }
}

impl Piece for TokenSet {
    ghost use Rattle.lost_digest.specs.Bytes.{texts_bytes};

    ghost bytes = { texts_bytes };

    fn feed(&self, hasher: &mut Md5) {
        feed_list(hasher, self.tokens());
    }
}

impl Piece for DisplayName {
    ghost use Rattle.lost_mapping.specs.Parts.{display_name_of};
    ghost use Rattle.lost_digest.specs.Bytes.{name_bytes};

    ghost bytes = { λ name. name_bytes (display_name_of name) };

    fn feed(&self, hasher: &mut Md5) {
        feed_pair(hasher, self.lang.as_str(), self.text.as_str());
    }
}

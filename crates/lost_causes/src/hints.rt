//! Hints at the likely intent.
use lost_geo::GeoPoint;
use serde_json::Value;

/// The hint for a number that is not whole, in place of one in 1e-7 degrees, if it may be in degrees.
pub(crate) fn number_hint(value: &Value) -> &'static str {
    if value.is_f64() && value.as_f64().is_some_and(are_degrees) {
        ": multiply degrees by 10000000"
    } else {
        ""
    }
}

/// Whether a number may be a latitude or a longitude in degrees, other than 0.
fn are_degrees(number: f64) -> bool {
    number >= -180.0 && number <= 180.0 && number != 0.0
}

/// The hint for two numbers that are no position, if they are one the other way round.
pub(crate) fn pair_hint(lat: i64, lon: i64) -> &'static str {
    if GeoPoint::new(lon, lat).is_ok() {
        ": the other way round both are in range, and latitude comes first"
    } else {
        ""
    }
}

/// Whether a line that is no JSON looks like JSON laid out over several lines.
pub(crate) fn is_laid_out(line: &[u8]) -> bool {
    let text = line.trim_ascii_start();
    text.starts_with(b"\"") || text.starts_with(b"}") || text.starts_with(b"]")
}

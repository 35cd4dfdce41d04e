//! What an HTTP request asks for (own paths).
ghost use Rattle.std.specs.Prelude.{◌≡◌};
ghost use Rattle.lost_status.specs.Page.{asked_for, is_reading as is_reading_method, page_at as page_at_path};

/// The page at a path.
#[derive(Clone, Copy, PartialEq, Eq, Debug)]
pub(crate) enum Page {
    /// `/health`: whether the server is ready.
    Health,
    /// `/metrics`: its numbers for Prometheus.
    Metrics,
    /// `/status`: its numbers as one JSON object.
    Report,
}

/// What a request asks for.
#[derive(Clone, Copy, PartialEq, Eq, Debug)]
pub(crate) enum Asked {
    /// A page.
    Shown(Page),
    /// A page, by a method that is neither GET nor HEAD.
    OtherMethod,
    /// A path at which there is no page.
    OtherPath,
}

/// What a request with this method and this path asks for. If there is no page, the method does not matter.
pub(crate) fn asked_by(method: &str, path: &str) -> Asked
    ensures { result ≡ asked_for method.now path.now }
{
    match page_at(path) {
        Some(page) if is_reading(method) => Asked::Shown(page),
        Some(_) => Asked::OtherMethod,
        None => Asked::OtherPath,
    }
}

/// The page at a path.
fn page_at(path: &str) -> Option<Page>
    ensures { result ≡ page_at_path path.now }
{
    match path {
        "/health" => Some(Page::Health),
        "/metrics" => Some(Page::Metrics),
        "/status" => Some(Page::Report),
        _ => None,
    }
}

/// Whether a method asks for a page, or for the head of one (RFC 9110, sections 9.3.1 and 9.3.2).
fn is_reading(method: &str) -> bool
    ensures { result ≡ is_reading_method method.now }
{
    method == "GET" || method == "HEAD"
}

//! The answer to an HTTP request (RFC 9110; own texts).
ghost use Rattle.std.specs.Prelude.{◌≡◌, [], ◌++◌, OnOk};
ghost use Rattle.lost_status.specs.declared.page.Asked.{Asked};
ghost use Rattle.lost_status.specs.Shown.{HasText, code_of, methods_text, paths_text};
ghost use Rattle.lost_status.specs.Answered.{HasMore};

use crate::page::{Asked, Page, asked_by};
use crate::snapshot::Snapshot;
use bytes::{BufMut, Bytes};
use http::{HeaderValue, Request, StatusCode, header};
use http_server::{Response, Service};
use lost_digest::MapDigest;
use std::alloc::{AllocError, Global};

/// The pages of a server with these numbers, as an HTTP service. Each answer ends its connection.
#[derive(Drop)]
pub(crate) struct Pages<'s> {
    pub(crate) alloc: Global,
    pub(crate) now: &'s Snapshot,
}

impl Service for Pages<'_> {
    ghost use Rattle.lost_status.specs.Answered.{Answers};

    ghost answers = { λ old request response new. Answers old.now.now new.now.now request response };

    fn call(
        &mut self,
        request: &Request<Bytes>,
        response: &mut Response,
    ) -> Result<(), AllocError> {
        response.add_header(header::CONNECTION, HeaderValue::from_static("close"))?;
        match asked_by(request.method().as_str(), request.uri().path()) {
            Asked::Shown(page) => show(self.alloc, self.now, page, response),
            Asked::OtherMethod => refuse_method(response),
            Asked::OtherPath => list_paths(response),
        }
    }
}

/// Answers with a page.
fn show(
    alloc: Global,
    now: &Snapshot,
    page: Page,
    response: &mut Response,
) -> Result<(), AllocError>
    requires status { response.old.status ≡ 200 }
    requires empty { response.old.body.items ≡ [] }
    ensures status { OnOk result (response.new.status ≡ code_of now.now (Asked.Shown page)) }
    ensures text { OnOk result (HasText now.now (Asked.Shown page) response.new.body.items) }
    ensures more { OnOk result (HasMore response.old response.new) }
{
    match page {
        Page::Health => show_health(alloc, now, response),
        Page::Metrics => {
            let text = now.metrics(alloc)?;
            let kind = HeaderValue::from_static("text/plain; version=0.0.4; charset=utf-8");
            write(response, kind, text.as_str())
        }
        Page::Report => {
            let mut text = now.json(alloc)?;
            text.push('\n')?;
            let kind = HeaderValue::from_static("application/json");
            write(response, kind, text.as_str())
        }
    }
}

/// Answers whether the server is ready, and with which edition and which map.
fn show_health(alloc: Global, now: &Snapshot, response: &mut Response) -> Result<(), AllocError>
    requires status { response.old.status ≡ 200 }
    requires empty { response.old.body.items ≡ [] }
    ensures status { OnOk result (response.new.status ≡ code_of now.now (Asked.Shown Page.Health)) }
    ensures text { OnOk result (HasText now.now (Asked.Shown Page.Health) response.new.body.items) }
    ensures more { OnOk result (HasMore response.old response.new) }
{
    if now.is_ready {
        let edition = now.desk.edition;
        let digest = MapDigest::of_number(now.desk.digest).text(alloc)?;
        let text = format!(in alloc; "ready\nedition {edition}\nmap {digest}\n")?;
        return write(response, plain(), text.as_str());
    }
    response.status = StatusCode::SERVICE_UNAVAILABLE;
    write(response, plain(), "not ready\n")
}

/// The content type of plain text.
fn plain() -> HeaderValue {
    HeaderValue::from_static("text/plain; charset=utf-8")
}

/// Answers that the page can only be read.
fn refuse_method(response: &mut Response) -> Result<(), AllocError>
    requires { response.old.body.items ≡ [] }
    ensures status { response.new.status ≡ 405 }
    ensures text { OnOk result (response.new.body.items ≡ methods_text) }
    ensures more { OnOk result (HasMore response.old response.new) }
{
    response.status = StatusCode::METHOD_NOT_ALLOWED;
    response.add_header(header::ALLOW, HeaderValue::from_static("GET, HEAD"))?;
    write(response, plain(), "GET or HEAD\n")
}

/// Answers with the list of paths.
fn list_paths(response: &mut Response) -> Result<(), AllocError>
    requires { response.old.body.items ≡ [] }
    ensures status { response.new.status ≡ 404 }
    ensures text { OnOk result (response.new.body.items ≡ paths_text) }
    ensures more { OnOk result (HasMore response.old response.new) }
{
    response.status = StatusCode::NOT_FOUND;
    write(response, plain(), "/health\n/metrics\n/status\n")
}

/// Gives a response its text and content type.
fn write(response: &mut Response, kind: HeaderValue, text: &str) -> Result<(), AllocError>
    ensures status { response.new.status ≡ response.old.status }
    ensures text { OnOk result (response.new.body.items ≡ response.old.body.items ++ text.now) }
    ensures more { OnOk result (HasMore response.old response.new) }
{
    response.add_header(header::CONTENT_TYPE, kind)?;
    response.body.put_slice(text.as_bytes())
}

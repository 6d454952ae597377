//! What is answered to a request for metrics.

ghost use Rattle.std.specs.Prelude.{◌≡◌, [], IfOk, OnOk, string_bytes};
ghost use Rattle.http.specs.Request.{head_of};
ghost use Rattle.http_uri.specs.Uri.{uri_path};
ghost use Rattle.http_server.specs.Response.{IsBlank, IsResponse};
ghost use Rattle.library_server.specs.Metrics.{IsMetrics, IsPage, method_headers, page_headers, refusal_headers, wanted_by};

use crate::server_state::{counts_of_server, summary_of_server};
use crate::serving::ServiceMeans;
use bytes::{BufMut, Bytes};
use http::{HeaderValue, Method, Request, StatusCode, header};
use http_server::{Response, Service};
use kept_unit::Ledgers;
use library_start::Device;
use lun_router::{Library, Pass};
use metrics_text::metrics_text;
use record_lines::RecordCounts;
use server::LiveSessions;
use status_reader::read_library;
use std::alloc::AllocError;
use std::io::Write;
use std::sync::{Mutex, Wait};

/// Which page a request asks for.
#[derive(Clone, Copy)]
pub(crate) enum Wanted {
    Metrics,
    /// The same, by another method than GET.
    OtherMethod,
    OtherPage,
}

/// Answers requests for the metrics of a library.
#[derive(Drop)]
pub(crate) struct MetricsPage<'a, 'k, 'f, B: Ledgers, R: Wait, E: Write> {
    pub means: &'a ServiceMeans<'k, 'f, R, E>,
    pub library: &'a Library<B, Device, Pass>,
    pub sessions: &'a LiveSessions,
    pub counts: &'a Mutex<RecordCounts>,
    /// Whether metrics were answered last.
    pub is_told: bool,
}

impl<'a, 'k, 'f, B: Ledgers, R: Wait, E: Write> Service for MetricsPage<'a, 'k, 'f, B, R, E> {
    ghost answers = { λ old request response new. IsPage B.profile old.library.now.units (wanted_by (head_of request).method (uri_path (head_of request).uri)) response };

    fn call(
        &mut self,
        request: &Request<Bytes>,
        response: &mut Response,
    ) -> Result<(), AllocError> {
        let wanted = wanted_by(request.method(), request.uri().path());
        let is_told = fill(
            self.means,
            self.library,
            self.sessions,
            self.counts,
            wanted,
            response,
        )?;
        self.is_told = is_told;
        Ok(())
    }
}

/// Which page is wanted by a method and a path.
fn wanted_by(method: &Method, path: &str) -> Wanted
    ensures { result ≡ wanted_by method.now path.now }
{
    if path != "/metrics" {
        return Wanted::OtherPage;
    }
    if method.as_str() == "GET" {
        Wanted::Metrics
    } else {
        Wanted::OtherMethod
    }
}

/// Fills a response with what is wanted. Whether that is metrics.
fn fill<B: Ledgers, R: Wait, E: Write>(
    means: &ServiceMeans<'_, '_, R, E>,
    library: &Library<B, Device, Pass>,
    sessions: &LiveSessions,
    counts: &Mutex<RecordCounts>,
    wanted: Wanted,
    response: &mut Response,
) -> Result<bool, AllocError>
    requires { IsBlank response.old }
    ensures { OnOk result (IsPage B.profile library.now.units wanted response.new) }
{
    match wanted {
        Wanted::Metrics => {
            let text = metrics_of(means, library, sessions, counts)?;
            write_page(response, text.as_str())?;
            Ok(true)
        }
        Wanted::OtherMethod => {
            refuse_method(response)?;
            Ok(false)
        }
        Wanted::OtherPage => {
            refuse_page(response)?;
            Ok(false)
        }
    }
}

/// The metrics of a library: how often records were counted, each unit, and the server. May wait for calls at units.
fn metrics_of<B: Ledgers, R: Wait, E: Write>(
    means: &ServiceMeans<'_, '_, R, E>,
    library: &Library<B, Device, Pass>,
    sessions: &LiveSessions,
    counts: &Mutex<RecordCounts>,
) -> Result<String, AllocError>
    ensures { IfOk result (λ text. IsMetrics B.profile library.now.units (string_bytes text)) }
{
    let (rt, alloc) = (means.rt, means.alloc);
    let summary = read_library(rt, alloc, library)?;
    let server = summary_of_server(alloc, means.files, means.keeper)?;
    let server_counts = counts_of_server(rt, means.keeper, sessions);
    let counted = counts.lock(rt);
    let text = metrics_text(alloc, &counted, &summary, &server, &server_counts)?;
    Ok(text)
}

/// Fills a response with metrics. The connection ends behind it.
fn write_page(response: &mut Response, text: &str) -> Result<(), AllocError>
    requires { IsBlank response.old }
    ensures { OnOk result (IsResponse 200 page_headers text.now response.new) }
{
    let format = HeaderValue::from_static("text/plain; version=0.0.4");
    response.add_header(header::CONTENT_TYPE, format)?;
    response.add_header(header::CONNECTION, HeaderValue::from_static("close"))?;
    response.body.put_slice(text.as_bytes())
}

/// Fills a response that says that only GET is known here.
fn refuse_method(response: &mut Response) -> Result<(), AllocError>
    requires { IsBlank response.old }
    ensures { OnOk result (IsResponse 405 method_headers [] response.new) }
{
    response.status = StatusCode::METHOD_NOT_ALLOWED;
    response.add_header(header::ALLOW, HeaderValue::from_static("GET"))?;
    response.add_header(header::CONNECTION, HeaderValue::from_static("close"))
}

/// Fills a response that says that there is nothing here.
fn refuse_page(response: &mut Response) -> Result<(), AllocError>
    requires { IsBlank response.old }
    ensures { OnOk result (IsResponse 404 refusal_headers [] response.new) }
{
    response.status = StatusCode::NOT_FOUND;
    response.add_header(header::CONNECTION, HeaderValue::from_static("close"))
}

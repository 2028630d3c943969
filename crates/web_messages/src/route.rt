//! Where the method and the target of a head lead.
ghost use Rattle.std.specs.Prelude.{◌≡◌, Some, codes};
ghost use Rattle.web_messages.specs.Routes.{path_of, query_of, by_method, page_by_method, page_from_elsewhere, route_at, route_of, from_elsewhere, route_from};

use crate::paths::Paths;
use crate::refusal::Refusal;
use crate::resource::Resource;
use report_options::Command;

/// Where a method and a path lead.
#[derive(Clone, Copy, Debug, PartialEq, Eq)]
pub enum Route {
    /// To a report.
    Report(Command),
    /// To the text of the journal.
    Download,
    /// To an entry at the end of the journal.
    Add,
    /// To an entry in the place of an item, or another text in the place of all.
    Edit,
    /// To another text in the place of all, as it stands.
    Upload,
    /// To the entries of a file.
    Import,
    /// To a path of the page, which leads nowhere where the server has no page.
    Page(PageRoute),
    /// Nowhere.
    Refused(Refusal),
}

/// Where a path of the page leads, if the server has a page.
#[derive(Clone, Copy, Debug, PartialEq, Eq)]
pub enum PageRoute {
    /// To the page.
    Home,
    /// To the check of an entry, which adds nothing.
    Check,
    /// To the entries that a bank's file would add.
    Preview,
    /// Nowhere.
    Refused(Refusal),
}

/// The path and the query of a target.
pub fn split_target(target: &[u8]) -> (&[u8], &[u8])
    ensures path { result.0.now ≡ path_of target.now }
    ensures query { result.1.now ≡ query_of target.now }
{
    match target.iter().position(|b| *b == b'?') {
        Some(at) => (&target[..at], &target[at + 1..]),
        None => (target, &[]),
    }
}

/// A route that is taken by one method alone.
fn by_one_method(method: &[u8], wanted: &[u8], found: Route, refusal: Refusal) -> Route
    ensures { result ≡ by_method method.now wanted.now found refusal }
{
    if method == wanted {
        found
    } else {
        Route::Refused(refusal)
    }
}

/// Where a method leads at a path of the page, which is taken by one method alone.
fn page_by_one_method(method: &[u8], wanted: &[u8], found: PageRoute, refusal: Refusal) -> PageRoute
    ensures { result ≡ page_by_method method.now wanted.now found refusal }
{
    if method == wanted {
        found
    } else {
        PageRoute::Refused(refusal)
    }
}

/// Where a method leads at the page's own path.
fn to_home(method: &[u8]) -> Route
    ensures { result ≡ route_at method.now (Some Resource.Page) }
{
    Route::Page(page_by_one_method(method, b"GET", PageRoute::Home, Refusal::GetOnly))
}

/// Where a method leads at a path where the page posts.
fn to_dry_run(method: &[u8], found: PageRoute) -> Route
    ensures { result ≡ Route.Page (page_by_method method.now (codes "POST") found Refusal.PostOnly) }
{
    Route::Page(page_by_one_method(method, b"POST", found, Refusal::PostOnly))
}

/// Where a method and a path lead.
pub fn find_route(paths: &Paths, method: &[u8], path: &[u8]) -> Route
    ensures { result ≡ route_of method.now path.now }
{
    match paths.find(path) {
        Some(Resource::Report(command)) => by_one_method(
            method,
            b"GET",
            Route::Report(command),
            Refusal::GetOnly,
        ),
        Some(Resource::Download) => by_one_method(
            method,
            b"GET",
            Route::Download,
            Refusal::GetOnly,
        ),
        Some(Resource::Add) => by_one_method(method, b"POST", Route::Add, Refusal::PostOnly),
        Some(Resource::Edit) => by_one_method(method, b"POST", Route::Edit, Refusal::PostOnly),
        Some(Resource::Upload) => by_one_method(method, b"POST", Route::Upload, Refusal::PostOnly),
        Some(Resource::Import) => by_one_method(method, b"POST", Route::Import, Refusal::PostOnly),
        Some(Resource::Page) => to_home(method),
        Some(Resource::Check) => to_dry_run(method, PageRoute::Check),
        Some(Resource::Preview) => to_dry_run(method, PageRoute::Preview),
        None => Route::Refused(Refusal::Path),
    }
}

/// Where a cross-origin request leads at a path of the page: the page is shown, and what posts is refused.
fn page_from_elsewhere(found: PageRoute) -> PageRoute
    ensures { result ≡ page_from_elsewhere found }
{
    match found {
        PageRoute::Check | PageRoute::Preview => PageRoute::Refused(Refusal::Origin),
        other => other,
    }
}

/// Where a cross-origin request leads: one that reads is answered, one that posts is refused.
fn from_elsewhere(route: Route) -> Route
    ensures { result ≡ from_elsewhere route }
{
    match route {
        Route::Add | Route::Edit | Route::Upload | Route::Import => Route::Refused(Refusal::Origin),
        Route::Page(found) => Route::Page(page_from_elsewhere(found)),
        other => other,
    }
}

/// Where a request leads, by where its method and its path do, and by whether it is cross-origin.
pub fn route_from(is_cross_origin: bool, route: Route) -> Route
    ensures { result ≡ route_from is_cross_origin route }
{
    if is_cross_origin {
        from_elsewhere(route)
    } else {
        route
    }
}

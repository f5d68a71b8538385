ghost use Rattle.std.specs.Prelude.{◌≡◌};
ghost use Rattle.http_wire.specs.Verdicts.{is_listed, route_of};

use base_types::{List, Utf8};

/// The targets that are served.
///
/// The target of POST takes no GET, also where it is listed among those of GET.
#[derive(Debug, Drop)]
pub struct Routes {
    /// The target that takes a POST.
    pub post: Utf8,
    /// The targets that take a GET.
    pub gets: List<Utf8>,
}

/// Where a request goes, by its target and its method.
#[derive(Clone, Copy, Debug, Eq, PartialEq)]
pub enum Route {
    /// The target is none that is served.
    Unknown,
    /// The target takes another method.
    OtherMethod,
    Post,
    Get,
}

// Whether a target is one of the paths.
fn is_listed(target: &str, paths: &List<Utf8>) -> bool
    ensures { result ≡ is_listed target.now paths.now }
{
    paths.as_slice().iter().any(|path| path.as_str() == target)
}

/// Where a request goes.
pub fn route_of(routes: &Routes, method: &str, target: &str) -> Route
    ensures { result ≡ route_of routes.now method.now target.now }
{
    if target == routes.post.as_str() {
        if method == "POST" {
            Route::Post
        } else {
            Route::OtherMethod
        }
    } else if is_listed(target, &routes.gets) {
        if method == "GET" {
            Route::Get
        } else {
            Route::OtherMethod
        }
    } else {
        Route::Unknown
    }
}

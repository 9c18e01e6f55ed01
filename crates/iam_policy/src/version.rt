// The version of a document.
ghost use Rattle.std.specs.Prelude.{◌≡◌, codes};
ghost use Rattle.serde_json.specs.Find.{get};
ghost use Rattle.serde_json.specs.View.{view};
ghost use Rattle.iam_policy.specs.Version.{version_named, version_of};

use iam_text::Version;
use serde_json::Value;

/// The version that a document names, or that an absent `Version` means.
pub fn version_named(document: &Value) -> Option<Version>
    ensures { result ≡ version_named (get (codes "Version") (view document.now)) }
{
    let Some(version) = document.get("Version") else {
        return Some(Version::V2008);
    };
    match version.as_str()? {
        "2012-10-17" => Some(Version::V2012),
        "2008-10-17" => Some(Version::V2008),
        _ => None,
    }
}

/// The version that a document is read in; one that names no version is refused.
pub fn version_of(document: &Value) -> Version
    ensures { result ≡ version_of (view document.now) }
{
    version_named(document).unwrap_or(Version::V2012)
}

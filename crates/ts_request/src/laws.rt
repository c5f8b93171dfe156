//! The laws of what is shown of a client, and of its upload, and the limits.
ghost use Rattle.ts_request.specs.Limits.{AreLimits};
ghost use Rattle.ts_request.specs.Upload.{HasOneShown, HasOneUpload};

/// The limits of request bodies. This is a law: the function does nothing.
pub fn limits()
    ensures { AreLimits }
{}

/// One list is shown of the bytes of a client.
pub fn one_shown()
    ensures { HasOneShown }
{}

/// A client has at most one upload.
pub fn one_upload()
    ensures { HasOneUpload }
{}

//! What a request that is asked for comes to.

ghost use Rattle.std.specs.Prelude.{◌≡◌, All, IfSome, List, String};
ghost use Rattle.std.specs.declared.alloc.Global.{Global};
ghost use Rattle.json_fields.specs.Fields.{IsHash};
ghost use Rattle.request_text.specs.RequestText.{request_at};
ghost use Rattle.request_making.specs.Asked.{HasBytes, asked_of};
ghost use Rattle.request_making.specs.Written.{request_data};
ghost use Rattle.request_making.specs.declared.payment.Payment.{Payment};
ghost use Rattle.request_making.specs.declared.settings.Settings.{Settings};

/// The law of written requests: the JSON value that is written of what is asked is read as that, or refused for the
/// first rule that this breaks.
pub fn reads_made()
    ensures { (payments : List Payment) (coins : List (String Global)) (s : Settings) → All HasBytes payments → IsHash s.seed → IfSome s.bump IsHash → request_at (request_data payments coins s) ≡ asked_of payments coins s }
{}

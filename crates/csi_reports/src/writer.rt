//! A text of JSON in compact form, written part by part.
ghost use Rattle.std.specs.Prelude.{◌≡◌, ◌++◌, ◌∷◌, [], OnOk, string_bytes, decimal};
ghost use Rattle.json.specs.Token.{begin_object, end_object, begin_array, end_array, key as key_token, string, number as number_token};
ghost use Rattle.json.specs.Token.{boolean, null as null_token};
ghost use Rattle.json.specs.Tree.{json_tokens};
ghost use Rattle.serde_json.specs.Data.{Data};
ghost use Rattle.serde_json.specs.Written.{outline, compact_text};

use json::Writer;
use std::alloc::{AllocError, Global};
use std::marker::Model;

/// A text of JSON that is being written. A contract sees the tokens that were written: those of a value are the text of the
/// value in compact form. A method's `Err` is an allocation that was refused.
#[derive(Drop)]
pub struct JsonWriter {
    out: Writer,
}

impl Model for JsonWriter {
    ghost use Rattle.std.specs.Prelude.{◌≡◌, List, []};
    ghost use Rattle.json.specs.Token.{Token, tokens_code};

    ghost Value = { List Token };

    ghost coded = { tokens_code };

    ghost view = { λ a. a.out.tokens };

    ghost invariant = { λ a. a.out.before ≡ [] };
}

impl JsonWriter {
    /// One in which nothing is written.
    pub fn new(alloc: Global) -> JsonWriter
        ensures { result ≡ [] }
    {
        JsonWriter {
            out: Writer::new(Vec::new(alloc)),
        }
    }

    /// The text that was written.
    pub fn into_string(self) -> String
        ensures { (d : Data) → self ≡ json_tokens (outline d) → string_bytes result ≡ compact_text d }
    {
        let JsonWriter { out } = self;
        let bytes = out.into_inner();
        // Tokens are printed as UTF-8, which is proved.
        unsafe { String::from_utf8_unchecked(bytes) }
    }

    /// Opens an object.
    pub fn begin_object(&mut self) -> Result<(), AllocError>
        ensures { OnOk result (self.new ≡ self.old ++ begin_object ∷ []) }
    {
        self.out.begin_object()
    }

    /// Closes an object.
    pub fn end_object(&mut self) -> Result<(), AllocError>
        ensures { OnOk result (self.new ≡ self.old ++ end_object ∷ []) }
    {
        self.out.end_object()
    }

    /// Opens an array.
    pub fn begin_array(&mut self) -> Result<(), AllocError>
        ensures { OnOk result (self.new ≡ self.old ++ begin_array ∷ []) }
    {
        self.out.begin_array()
    }

    /// Closes an array.
    pub fn end_array(&mut self) -> Result<(), AllocError>
        ensures { OnOk result (self.new ≡ self.old ++ end_array ∷ []) }
    {
        self.out.end_array()
    }

    /// Writes the key of a member, before its value.
    pub fn key(&mut self, key: &str) -> Result<(), AllocError>
        ensures { OnOk result (self.new ≡ self.old ++ key_token key.now ∷ []) }
    {
        self.out.key(key)
    }

    /// Writes a text.
    pub fn text(&mut self, text: &str) -> Result<(), AllocError>
        ensures { OnOk result (self.new ≡ self.old ++ string text.now ∷ []) }
    {
        self.out.string(text)
    }

    /// Writes a whole number.
    pub fn number(&mut self, number: u64) -> Result<(), AllocError>
        ensures { OnOk result (self.new ≡ self.old ++ number_token (decimal number) ∷ []) }
    {
        self.out.u64(number)
    }

    /// Writes the value that is none.
    pub fn null(&mut self) -> Result<(), AllocError>
        ensures { OnOk result (self.new ≡ self.old ++ null_token ∷ []) }
    {
        self.out.null()
    }

    /// Writes a member that is a text.
    pub fn put_text(&mut self, key: &str, text: &str) -> Result<(), AllocError>
        ensures { OnOk result (self.new ≡ self.old ++ key_token key.now ∷ string text.now ∷ []) }
    {
        self.out.key(key)?;
        self.out.string(text)
    }

    /// Writes a member that is a whole number.
    pub fn put_number(&mut self, key: &str, number: u64) -> Result<(), AllocError>
        ensures { OnOk result (self.new ≡ self.old ++ key_token key.now ∷ number_token (decimal number) ∷ []) }
    {
        self.out.key(key)?;
        self.out.u64(number)
    }

    /// Writes a member that is `true` or `false`.
    pub fn put_flag(&mut self, key: &str, flag: bool) -> Result<(), AllocError>
        ensures { OnOk result (self.new ≡ self.old ++ key_token key.now ∷ boolean flag ∷ []) }
    {
        self.out.key(key)?;
        self.out.boolean(flag)
    }
}

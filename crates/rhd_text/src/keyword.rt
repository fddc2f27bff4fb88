//! Keywords: the words that lines and calls begin with.

ghost use Rattle.std.specs.Prelude.{◌≡◌};
ghost use Rattle.rhd_text.specs.Rows.{call_form, all_calls, step, manifest_form, join_spelling, form, all_keywords};
ghost use Rattle.rhd_text.specs.ReadRows.{keyword_in, of_length};

use rhd_syntax::same_word;

/// The word of a call.
#[derive(Clone, Copy, Debug, PartialEq, Eq)]
pub enum CallWord {
    Call,
    CallNative,
    Ref,
    RefNative,
    Method,
    MethodNative,
    Qual,
    QualRef,
}

impl CallWord {
    fn spelling(self) -> &'static [u8]
        ensures { result.now ≡ (call_form self).spelling }
    {
        match self {
            CallWord::Call => b"call",
            CallWord::CallNative => b"call-native",
            CallWord::Ref => b"ref",
            CallWord::RefNative => b"ref-native",
            CallWord::Method => b"method",
            CallWord::MethodNative => b"method-native",
            CallWord::Qual => b"qual",
            CallWord::QualRef => b"qual-ref",
        }
    }
}

/// The word that a line about manifests begins with.
#[derive(Clone, Copy, Debug, PartialEq, Eq)]
pub enum ManifestWord {
    Manifest,
    Entry,
    Sub,
    Var,
    Type,
    FromManifest,
    CombineManifest,
    RegisterLazy,
}

impl ManifestWord {
    fn spelling(self) -> &'static [u8]
        ensures { result.now ≡ (manifest_form self).spelling }
    {
        match self {
            ManifestWord::Manifest => b"manifest",
            ManifestWord::Entry => b"entry",
            ManifestWord::Sub => b"sub",
            ManifestWord::Var => b"mvar",
            ManifestWord::Type => b"mtype",
            ManifestWord::FromManifest => b"from-manifest",
            ManifestWord::CombineManifest => b"combine-manifest",
            ManifestWord::RegisterLazy => b"register-lazy",
        }
    }
}

/// The word that a line which joins a module to another begins with.
#[derive(Clone, Copy, Debug, PartialEq, Eq)]
pub enum JoinWord {
    Combine,
    CombineFlatten,
    Fill,
    Merge,
}

impl JoinWord {
    fn spelling(self) -> &'static [u8]
        ensures { result.now ≡ join_spelling self }
    {
        match self {
            JoinWord::Combine => b"combine",
            JoinWord::CombineFlatten => b"combine-flatten",
            JoinWord::Fill => b"fill",
            JoinWord::Merge => b"merge",
        }
    }
}

/// The word that a line begins with.
#[derive(Clone, Copy, Debug, PartialEq, Eq)]
pub enum Keyword {
    Seeds,
    Limits,
    Printer,
    Builtin,
    Host,
    File,
    Body,
    Ret,
    Fail,
    Register,
    RegisterRaw,
    RegisterType,
    Module,
    SetId,
    SetDoc,
    SetVar,
    SetType,
    Native,
    Raw,
    RawIter,
    RawScript,
    Script,
    Submodule,
    Clear,
    Count,
    HasNative,
    HasScript,
    Lib,
    PopLib,
    Index,
    Global,
    Static,
    Import,
    ImportPath,
    PopImport,
    Source,
    NoSource,
    Tag,
    Manifest(ManifestWord),
    Join(JoinWord),
    Call(CallWord),
}

impl Keyword {
    fn spelling(self) -> &'static [u8]
        ensures { result.now ≡ (form self).spelling }
    {
        match self {
            Keyword::Seeds => b"seeds",
            Keyword::Limits => b"limits",
            Keyword::Printer => b"printer",
            Keyword::Builtin => b"builtin",
            Keyword::Host => b"host",
            Keyword::File => b"file",
            Keyword::Body => b"body",
            Keyword::Ret => b"ret",
            Keyword::Fail => b"fail",
            Keyword::Register => b"register",
            Keyword::RegisterRaw => b"register-raw",
            Keyword::RegisterType => b"register-type",
            Keyword::Module => b"module",
            Keyword::SetId => b"id",
            Keyword::SetDoc => b"doc",
            Keyword::SetVar => b"var",
            Keyword::SetType => b"type",
            Keyword::Native => b"native",
            Keyword::Raw => b"raw",
            Keyword::RawIter => b"raw-iter",
            Keyword::RawScript => b"raw-script",
            Keyword::Script => b"script",
            Keyword::Submodule => b"submodule",
            Keyword::Clear => b"clear",
            Keyword::Count => b"count",
            Keyword::HasNative => b"has-native",
            Keyword::HasScript => b"has-script",
            Keyword::Lib => b"lib",
            Keyword::PopLib => b"pop-lib",
            Keyword::Index => b"index",
            Keyword::Global => b"global",
            Keyword::Static => b"static",
            Keyword::Import => b"import",
            Keyword::ImportPath => b"import-path",
            Keyword::PopImport => b"pop-import",
            Keyword::Source => b"source",
            Keyword::NoSource => b"no-source",
            Keyword::Tag => b"tag",
            Keyword::Manifest(word) => word.spelling(),
            Keyword::Join(word) => word.spelling(),
            Keyword::Call(call) => call.spelling(),
        }
    }
}

#[tactic(auto, unfolding(crate::specs::ReadRows::keyword_in))]
fn call_in(calls: &[CallWord], word: &[u8]) -> Option<CallWord>
    ensures { result ≡ keyword_in step calls.now word.now }
{
    for k in calls {
        if same_word(k.spelling(), word) {
            return Some(*k);
        }
    }
    None
}

/// The word of a call that is spelled so.
pub fn call_of(word: &[u8]) -> Option<CallWord>
    ensures { result ≡ keyword_in step all_calls word.now }
{
    call_in(
        &[
            CallWord::Call,
            CallWord::CallNative,
            CallWord::Ref,
            CallWord::RefNative,
            CallWord::Method,
            CallWord::MethodNative,
            CallWord::Qual,
            CallWord::QualRef,
        ],
        word,
    )
}

#[tactic(auto, unfolding(crate::specs::ReadRows::keyword_in))]
fn keyword_in(keywords: &[Keyword], word: &[u8]) -> Option<Keyword>
    ensures { result ≡ keyword_in form keywords.now word.now }
{
    for k in keywords {
        if same_word(k.spelling(), word) {
            return Some(*k);
        }
    }
    None
}

/// The keywords of so many bytes, the more frequent ones first.
fn keywords(size: usize) -> &'static [Keyword]
    ensures { result.now ≡ of_length form size all_keywords }
{
    match size {
        2 => &[Keyword::SetId],
        3 => &[
            Keyword::Call(CallWord::Ref),
            Keyword::Raw,
            Keyword::Lib,
            Keyword::Tag,
            Keyword::SetDoc,
            Keyword::SetVar,
            Keyword::Manifest(ManifestWord::Sub),
            Keyword::Ret,
        ],
        4 => &[
            Keyword::Call(CallWord::Call),
            Keyword::Call(CallWord::Qual),
            Keyword::SetType,
            Keyword::Manifest(ManifestWord::Var),
            Keyword::Join(JoinWord::Fill),
            Keyword::Body,
            Keyword::Fail,
            Keyword::Host,
            Keyword::File,
        ],
        5 => &[
            Keyword::Index,
            Keyword::Clear,
            Keyword::Count,
            Keyword::Manifest(ManifestWord::Entry),
            Keyword::Manifest(ManifestWord::Type),
            Keyword::Join(JoinWord::Merge),
            Keyword::Seeds,
        ],
        6 => &[
            Keyword::Call(CallWord::Method),
            Keyword::Script,
            Keyword::Native,
            Keyword::Module,
            Keyword::Import,
            Keyword::Source,
            Keyword::Global,
            Keyword::Static,
            Keyword::Limits,
        ],
        7 => &[
            Keyword::PopLib,
            Keyword::Join(JoinWord::Combine),
            Keyword::Builtin,
            Keyword::Printer,
        ],
        8 => &[
            Keyword::Call(CallWord::QualRef),
            Keyword::Register,
            Keyword::RawIter,
            Keyword::Manifest(ManifestWord::Manifest),
        ],
        9 => &[Keyword::NoSource, Keyword::Submodule],
        10 => &[
            Keyword::Call(CallWord::RefNative),
            Keyword::PopImport,
            Keyword::RawScript,
            Keyword::HasNative,
            Keyword::HasScript,
        ],
        11 => &[Keyword::Call(CallWord::CallNative), Keyword::ImportPath],
        12 => &[Keyword::RegisterRaw],
        13 => &[
            Keyword::Call(CallWord::MethodNative),
            Keyword::RegisterType,
            Keyword::Manifest(ManifestWord::FromManifest),
            Keyword::Manifest(ManifestWord::RegisterLazy),
        ],
        15 => &[Keyword::Join(JoinWord::CombineFlatten)],
        16 => &[Keyword::Manifest(ManifestWord::CombineManifest)],
        _ => &[],
    }
}

/// The keyword that is spelled so.
pub fn keyword_of(word: &[u8]) -> Option<Keyword>
    ensures { result ≡ keyword_in form all_keywords word.now }
{
    keyword_in(keywords(word.len()), word)
}

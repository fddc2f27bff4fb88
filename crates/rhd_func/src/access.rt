//! Who may call a function, and from where it is found; numbers of things.

ghost use Rattle.std.specs.Prelude.{◌≡◌};
ghost use Rattle.rhd_func.specs.Access.{is_private, is_public, is_module_namespace, is_global_namespace};

/// Whether a function is found from outside its module.
#[derive(Clone, Copy, PartialEq, Eq, PartialOrd, Ord, Hash, Debug)]
pub enum FnAccess {
    Private,
    Public,
}

impl FnAccess {
    pub fn is_private(self) -> bool
        ensures { result ≡ is_private self }
    {
        match self {
            FnAccess::Private => true,
            FnAccess::Public => false,
        }
    }

    pub fn is_public(self) -> bool
        ensures { result ≡ is_public self }
    {
        match self {
            FnAccess::Private => false,
            FnAccess::Public => true,
        }
    }
}

/// Whether a function of a module that is imported is found without the module's name.
#[derive(Clone, Copy, PartialEq, Eq, PartialOrd, Ord, Hash, Debug)]
pub enum FnNamespace {
    Internal,
    Global,
}

impl FnNamespace {
    /// Whether it is found under its module's name alone.
    pub fn is_module_namespace(self) -> bool
        ensures { result ≡ is_module_namespace self }
    {
        match self {
            FnNamespace::Internal => true,
            FnNamespace::Global => false,
        }
    }

    /// Whether it is found without its module's name too.
    pub fn is_global_namespace(self) -> bool
        ensures { result ≡ is_global_namespace self }
    {
        match self {
            FnNamespace::Internal => false,
            FnNamespace::Global => true,
        }
    }
}

/// The number of an environment, counted from 0.
#[derive(Clone, Copy, PartialEq, Eq, Debug)]
pub struct EnvId(pub u32);

/// The number of a function that iterates, counted from 0.
#[derive(Clone, Copy, PartialEq, Eq, Debug)]
pub struct IterId(pub u32);

/// The number of a manifest, counted from 0.
#[derive(Clone, Copy, PartialEq, Eq, Debug)]
pub struct ManifestId(pub u32);

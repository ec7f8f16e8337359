//! The names that Nix itself binds.

ghost use Rattle.std.specs.Prelude.{◌≡◌, map, bytes_eq};
ghost use Rattle.std.specs.List.{list_any};
ghost use Rattle.nix_scopes.specs.Globals.{is_global};

// The names that Nix 2.8 binds around every text, in order. A `with` binds none of them.
const GLOBAL_NAMES: [&str; 109] = [
    "__add",
    "__addErrorContext",
    "__all",
    "__any",
    "__appendContext",
    "__attrNames",
    "__attrValues",
    "__bitAnd",
    "__bitOr",
    "__bitXor",
    "__catAttrs",
    "__ceil",
    "__compareVersions",
    "__concatLists",
    "__concatMap",
    "__concatStringsSep",
    "__currentSystem",
    "__currentTime",
    "__deepSeq",
    "__div",
    "__elem",
    "__elemAt",
    "__fetchurl",
    "__filter",
    "__filterSource",
    "__findFile",
    "__floor",
    "__foldl'",
    "__fromJSON",
    "__functionArgs",
    "__genList",
    "__genericClosure",
    "__getAttr",
    "__getContext",
    "__getEnv",
    "__groupBy",
    "__hasAttr",
    "__hasContext",
    "__hashFile",
    "__hashString",
    "__head",
    "__intersectAttrs",
    "__isAttrs",
    "__isBool",
    "__isFloat",
    "__isFunction",
    "__isInt",
    "__isList",
    "__isPath",
    "__isString",
    "__langVersion",
    "__length",
    "__lessThan",
    "__listToAttrs",
    "__mapAttrs",
    "__match",
    "__mul",
    "__nixPath",
    "__nixVersion",
    "__parseDrvName",
    "__partition",
    "__path",
    "__pathExists",
    "__readDir",
    "__readFile",
    "__replaceStrings",
    "__seq",
    "__sort",
    "__split",
    "__splitVersion",
    "__storeDir",
    "__storePath",
    "__stringLength",
    "__sub",
    "__substring",
    "__tail",
    "__toFile",
    "__toJSON",
    "__toPath",
    "__toXML",
    "__trace",
    "__tryEval",
    "__typeOf",
    "__unsafeDiscardOutputDependency",
    "__unsafeDiscardStringContext",
    "__unsafeGetAttrPos",
    "__zipAttrsWith",
    "abort",
    "baseNameOf",
    "builtins",
    "derivation",
    "derivationStrict",
    "dirOf",
    "false",
    "fetchGit",
    "fetchMercurial",
    "fetchTarball",
    "fetchTree",
    "fromTOML",
    "import",
    "isNull",
    "map",
    "null",
    "placeholder",
    "removeAttrs",
    "scopedImport",
    "throw",
    "toString",
    "true",
];

// Returns whether a name is one of some names.
fn is_among(names: &[&'static str], name: &str) -> bool
    ensures { result ≡ list_any (λ own. bytes_eq own name.now) (map (λ own. own.now) names.now) }
{
    for own in names {
        if *own == name {
            return true;
        }
    }
    false
}

/// Returns whether Nix 2.8 itself binds a name around every text, as `map` and `true`. No `with` binds such a name.
#[tactic(auto, unfolding(crate::specs::Globals::is_global))]
pub fn is_global(name: &str) -> bool
    ensures { result ≡ is_global name.now }
{
    is_among(&GLOBAL_NAMES, name)
}

//! Files of a collection of packages.

use crate::draft::Draft;
use crate::numbers::Numbers;
use crate::template::Template;
use crate::words::Words;
use std::alloc::{AllocError, Global};

// A package, in the style that the formatter writes.
const PACKAGE: &str = r#"{
  lib,
  stdenv,
  fetchFromGitHub,
  %a,
  %b,
  %c,
  with%d ? true,
}:

let
  inherit (lib) optionals licenses;
  flags = [ "--with-%d" ];
  %w = "unused";
in
stdenv.mkDerivation (finalAttrs: {
  pname = "%p";
  version = "%0.%1.%2";

  src = fetchFromGitHub {
    owner = "%o";
    repo = "%p";
    rev = "v${finalAttrs.version}";
    hash = "sha256-%h%i%j%k%l%m=";
  };

  # %q %r needs %a at run time
  nativeBuildInputs = [
    %a
    %b
  ];

  buildInputs = [ %c ] ++ optionals (stdenv.hostPlatform.isLinux && with%d) [ %a ];
  configureFlags = if with%d then flags else [ ];

  postPatch = ''
    substituteInPlace src/%e.c --replace-fail "/usr/bin/%f" "${%a}/bin/%f"
    sed -i 's/%g/''${%g}/' Makefile
  '';

  meta = {
    description = "%q of %r for %s";
    homepage = "https://%t.org/%p";
    license = licenses.mit;
    maintainers = with lib.maintainers; [ %u ];
    platforms = lib.platforms.unix;
    mainProgram = "%p";
  };
})
"#;

// A module, in the style that the formatter writes.
const MODULE: &str = r#"{
  config,
  lib,
  pkgs,
  ...
}:

let
  cfg = config.services.%a;
  format = pkgs.formats.json { };
  configFile = format.generate "%a.json" cfg.settings;
in
{
  options.services.%a = {
    enable = lib.mkEnableOption "the %b";
    package = lib.mkPackageOption pkgs "%a" { };
    port = lib.mkOption {
      type = lib.types.port;
      default = 8%1;
      description = "The port that it listens on.";
    };
    users = lib.mkOption {
      type = lib.types.listOf lib.types.str;
      default = [
        "root"
        config.user.name
      ];
      description = ''
        Who may use %b.
        Each is named once.
      '';
    };
  };

  config = lib.mkIf cfg.enable {
    systemd.services.%a = {
      wantedBy = [ "multi-user.target" ];
      after = [ "network.target" ];
      serviceConfig = {
        ExecStart = "${lib.getExe cfg.package} --port ${toString cfg.port} --config ${configFile}";
        User = if cfg.users == [ ] then "nobody" else lib.head cfg.users;
      };
    };
  };
}
"#;

// A package that the formatter would change: other white space, and strings that move.
const LOOSE: &str = r#"{ lib, stdenv, fetchurl, %a, %b ? null,
  %c }:
stdenv.mkDerivation rec {
    pname = "%p"; version = "%0.%1";
    src = fetchurl { url = "https://%o.org/${pname}-${version}.tar.gz"; sha256 = "%h%i%j%k%l"; };
    buildInputs = [ %a ]
        ++ lib.optional (%b != null && stdenv.isLinux) %b;   # for %q
    installPhase = ''
          mkdir -p $out/bin
            install -m 755 %e $out/bin/${pname}
          ${lib.concatMapStrings (x: "ln -s ${x} $out") [ %a
        %c ]}
    '';
    meta = { description = "%q of %r"; license = lib.licenses.gpl3;
      maintainers = [ lib.maintainers.%u ]; };
}
"#;

// Entries of a list of all packages, in the style that the formatter writes.
const ENTRIES: [&str; 4] = [
    "  %a-%b = callPackage ../tools/%c/%a { };\n",
    "  %a%0 = callPackage ../development/%b/%a/%0.nix { inherit (self) %c; };\n",
    "  %a_%b = lib.recurseIntoAttrs (callPackage ../%c { with%d = false; });\n\n",
    "  # %a is %b\n  %a = self.%c.override { stdenv = %d; };\n",
];

/// The templates of files of a collection.
#[derive(Drop)]
pub struct Files {
    package: Template,
    module: Template,
    loose: Template,
}

impl Files {
    /// Reads the templates.
    pub fn new(alloc: Global) -> Result<Files, AllocError> {
        Ok(Files {
            package: Template::new(alloc, PACKAGE)?,
            module: Template::new(alloc, MODULE)?,
            loose: Template::new(alloc, LOOSE)?,
        })
    }

    // One of the templates: one in eight is that of files that the formatter would change; of the others, one in three is that of modules.
    fn template(&self, numbers: &mut Numbers) -> &Template {
        if numbers.below(8) == 0 {
            &self.loose
        } else if numbers.below(3) == 0 {
            &self.module
        } else {
            &self.package
        }
    }

    /// A file of a collection: a package or a module. The formatter would change one in eight of them.
    pub fn file(&self, alloc: Global, words: &Words, seed: u64) -> Result<String, AllocError> {
        let mut draft = Draft::new(alloc, words, seed);
        let template = self.template(draft.numbers());
        draft.fill(template)?;
        Ok(draft.into_text())
    }
}

/// A list of all packages, with `entries` entries.
pub fn listing(
    alloc: Global,
    words: &Words,
    seed: u64,
    entries: usize,
) -> Result<String, AllocError> {
    let mut draft = Draft::new(alloc, words, seed);
    let templates = Template::all(alloc, &ENTRIES)?;
    draft.push("{\n  lib,\n  callPackage,\n  self,\n}:\n\n{\n")?;
    for _entry in 0..entries {
        draft.fill_one(&templates)?;
    }
    draft.push("}\n")?;
    Ok(draft.into_text())
}

// An entry of a generated set: a call of a function with a pattern of ten names.
const GENERATED: &str =
    r#"  "%a-%%" = self.callPackage ({ mkDerivation, base, %b1, %c2, %d3, %e4, %f5, %g6, %h7, lib }:
    mkDerivation {
      pname = "%a"; version = "%0.%1.%2";
      sha256 = "%i%j%k%l%m%n%o";
      libraryHaskellDepends = [ base %b1 %c2 %d3 %e4 %f5 ];
      testHaskellDepends = [ base %g6 %h7 ];
      license = lib.licenses.bsd3;
    }) {};

"#;

/// A generated set with `entries` entries, which the formatter would change.
pub fn generated(
    alloc: Global,
    words: &Words,
    seed: u64,
    entries: usize,
) -> Result<String, AllocError> {
    let mut draft = Draft::new(alloc, words, seed);
    draft.push("{ pkgs, lib, callPackage }:\n\nself: {\n\n")?;
    draft.repeat(&Template::new(alloc, GENERATED)?, entries)?;
    draft.push("}\n")?;
    Ok(draft.into_text())
}

//! The parts of a page that are the same for each text: its head, with the style, and its bars.

/// What precedes the title.
pub const BEFORE_TITLE: &str = "<!DOCTYPE html>
<html lang='en'>
<meta charset='utf-8'>
<meta name='viewport' content='width=device-width, initial-scale=1'>
<meta name='color-scheme' content='light dark'>
<title>";

/// What comes between the title and the heading.
pub const AFTER_TITLE: &str = "</title>
<style>
:root {
  --text: #24292f; --back: #ffffff; --side: #f6f8fa; --line: #d0d7de; --dim: #57606a; --mark: #fff1a8; --found: #ffd8b5; --focus: #0969da;
  --red: #cf222e; --blue: #0550ae; --green: #116329; --navy: #0a3069; --violet: #6639ba;
}
@media (prefers-color-scheme: dark) {
  :root {
    --text: #e6edf3; --back: #0d1117; --side: #161b22; --line: #30363d; --dim: #8b949e; --mark: #4b4316; --found: #5a3a1a; --focus: #58a6ff;
    --red: #ff7b72; --blue: #79c0ff; --green: #7ee787; --navy: #a5d6ff; --violet: #d2a8ff;
  }
}
* { box-sizing: border-box }
body {
  margin: 0; height: 100vh; display: grid; grid-template: auto minmax(0, 1fr) auto / minmax(0, 1fr) minmax(0, 1fr);
  font: 14px/1.5 ui-monospace, monospace; color: var(--text); background: var(--back);
}
header, footer { grid-column: 1 / -1; padding: .4em 1em; background: var(--side); display: flex; flex-wrap: wrap; gap: .3em 1em; align-items: center }
header { border-bottom: 1px solid var(--line) }
footer { border-top: 1px solid var(--line); color: var(--dim); min-height: 2.4em }
h1 { margin: 0; font: inherit; font-weight: bold; flex: 1 1 auto; overflow-wrap: anywhere }
input, button { font: inherit; color: inherit; background: var(--back); border: 1px solid var(--line); border-radius: 4px; padding: .1em .5em }
main, nav { overflow: auto; padding: 1em }
nav { border-left: 1px solid var(--line); background: var(--side) }
pre { margin: 0; font: inherit; white-space: pre-wrap; overflow-wrap: anywhere; position: relative; padding: 0 0 1.5em 4.5em; counter-reset: line }
pre b { counter-increment: line }
pre b::before { content: counter(line); position: absolute; left: 0; width: 3.5em; text-align: right; \
    color: var(--dim); font-weight: normal; font-style: normal }
details { padding-left: 1em }
details > div { padding-left: 2em; overflow-wrap: anywhere }
.plain nav .trivia { display: none }
[data-start] { cursor: pointer }
:focus-visible { outline: 2px solid var(--focus); outline-offset: -2px }
#source { color: var(--violet) }
.TOKEN_IDENT { color: var(--text) }
.TOKEN_INTEGER, .TOKEN_FLOAT { color: var(--blue) }
.TOKEN_PATH_ABS, .TOKEN_PATH_HOME, .TOKEN_PATH_REL, .TOKEN_PATH_SEARCH { color: var(--green) }
.TOKEN_STRING_START, .TOKEN_STRING_CONTENT, .TOKEN_STRING_END, .TOKEN_URI, .token code { color: var(--navy) }
.TOKEN_ASSERT, .TOKEN_ELSE, .TOKEN_IF, .TOKEN_IN, .TOKEN_INHERIT, .TOKEN_LET, .TOKEN_OR, .TOKEN_REC, .TOKEN_THEN, .TOKEN_WITH,
#errors { color: var(--red) }
.TOKEN_COMMENT { color: var(--dim); font-style: italic }
.trivia { color: var(--dim) }
.error > [data-start], .missing, .TOKEN_ERROR { text-decoration: underline wavy var(--red); text-decoration-skip-ink: none }
.error > .TOKEN_WHITESPACE { text-decoration: none }
.missing::after { content: '\\a0' }
.found { background: var(--found) }
.marked { background: var(--mark) }
dialog { color: inherit; background: var(--back); border: 1px solid var(--line); border-radius: 6px }
dt { font-weight: bold }
@media (max-width: 700px) {
  body { grid-template: auto minmax(0, 1fr) minmax(0, 1fr) auto / minmax(0, 1fr) }
  nav { border-left: none; border-top: 1px solid var(--line) }
  main, nav { padding: .5em }
  pre { padding-left: 3.5em }
  pre b::before { width: 2.5em }
  details { padding-left: .5em }
  details > div { padding-left: 1.5em }
}
</style>
<header>
<h1>";

/// What comes between the heading and the source.
pub const AFTER_HEADING: &str = "</h1>
<input id='search' type='search' placeholder='Search ( / )' aria-label='Search the tree' size='14'>
<span id='count' aria-live='polite'></span>
<button id='fold'>Fold all</button>
<button id='unfold'>Unfold all</button>
<label><input id='plain' type='checkbox'> Hide trivia</label>
<button id='help' aria-label='Help'>?</button>
</header>
";

/// What comes between the tree and the script.
pub const AFTER_TREE: &str = "<footer id='place'></footer>
<dialog id='keys'>
<dl>
<dt>click</dt><dd>marks an element in the source and in the tree; a triangle folds</dd>
<dt>up, down</dt><dd>the line above or below in the tree</dd>
<dt>left, right</dt><dd>fold or go to the parent; unfold or go to the first child</dd>
<dt>Enter</dt><dd>marks the line; in the search, goes to the next match, with Shift to the previous one</dd>
<dt>/</dt><dd>searches the lines of the tree</dd>
<dt>?</dt><dd>shows this help; Escape closes it</dd>
</dl>
<form method='dialog'><button>Close</button></form>
</dialog>
";

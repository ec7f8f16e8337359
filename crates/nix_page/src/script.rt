//! The script of a page.

/// Marks what is clicked, shows the place under the pointer, folds, searches and handles keys.
pub const SCRIPT: &str = "<script>
const at = id => document.getElementById(id);
const all = (selector, inside = document) => [...inside.querySelectorAll(selector)];
const source = at('source'), tree = document.querySelector('nav');
const root = tree.querySelector('summary');
const start = element => +element.dataset.start, end = element => +element.dataset.end;

// The bytes of the text, and where its lines begin.
const bytes = new Uint8Array(end(root));
for (const token of all('[class^=TOKEN]', source)) {
  bytes.set(new TextEncoder().encode(token.textContent).subarray(0, end(token) - start(token)), start(token));
}
const lines = [0];
bytes.forEach((byte, offset) => { if (byte === 10) lines.push(offset + 1); });

// The line and the column of an offset, both from 1. Columns count characters.
function position(offset) {
  let low = 0, high = lines.length;
  while (high - low > 1) {
    const middle = (low + high) >> 1;
    if (lines[middle] <= offset) low = middle; else high = middle;
  }
  const before = bytes.subarray(lines[low], offset).filter(byte => (byte & 0xc0) !== 0x80);
  return `${low + 1}:${before.length + 1}`;
}

// Says what an element is, and where.
function describe(element) {
  const error = element.closest('.error, .missing');
  const kind = element.closest('nav') ? element.firstChild.textContent.trim() : element.closest('#errors') || error === element ? 'error' : element.className;
  const place = `${kind}  ${position(start(element))} to ${position(end(element))}, bytes ${start(element)}..${end(element)}`;
  return error ? `${place}: ${error.title}` : place;
}
function show(event) {
  const element = event.target.closest('[data-start]');
  at('place').textContent = element ? describe(element) : '';
}
document.addEventListener('mouseover', show);
document.addEventListener('focusin', show);

// Unfolds what is around an element, and scrolls to it.
function reveal(element) {
  for (let node = element.parentElement.closest('details'); node; node = node.parentElement.closest('details')) {
    if (node.firstElementChild !== element) node.open = true;
  }
  element.scrollIntoView({ block: 'nearest' });
}

// Marks all elements in the range of one, and shows it on the other side.
function mark(element) {
  const [from, to] = [start(element), end(element)];
  for (const other of all('[data-start]')) other.classList.toggle('marked', start(other) >= from && end(other) <= to);
  const first = (element.closest('nav') ? source : tree).querySelector('.marked');
  if (first) reveal(first);
}

// A click marks. On a node it folds only at the triangle, which is left of its name.
document.addEventListener('click', event => {
  const clicked = event.target.closest('[data-start]');
  if (!clicked) return;
  if (clicked.tagName === 'SUMMARY') {
    const triangle = parseFloat(getComputedStyle(clicked).fontSize) * 1.2;
    if (event.detail === 0 || event.offsetX < triangle) return;
    event.preventDefault();
  }
  mark(clicked);
});

// The lines of the tree: each node's name and each token. A line's block holds all that folds with it.
const block = line => line.tagName === 'SUMMARY' ? line.parentElement : line;
const line = block => block.tagName === 'DETAILS' ? block.firstElementChild : block;
const hidden = line => document.body.classList.contains('plain') && line.classList.contains('trivia');
function below(from) {
  if (from.tagName === 'SUMMARY' && from.parentElement.open && from.nextElementSibling) return line(from.nextElementSibling);
  let here = block(from);
  while (here && !here.nextElementSibling) here = here.parentElement.closest('details');
  return here && line(here.nextElementSibling);
}
function above(from) {
  let here = block(from).previousElementSibling;
  if (!here) return null;
  while (here.tagName === 'DETAILS' && here.open && here.lastElementChild !== here.firstElementChild) here = here.lastElementChild;
  return line(here);
}
function skip(from, step) {
  let next = step(from);
  while (next && hidden(next)) next = step(next);
  return next;
}
function go(to) {
  if (!to) return;
  to.tabIndex = -1;
  to.focus({ preventScroll: true });
  reveal(to);
}
const parent = from => block(from).parentElement.closest('details')?.firstElementChild;
const moves = {
  ArrowDown: here => go(skip(here, below)),
  ArrowUp: here => go(skip(here, above)),
  ArrowLeft: here => {
    if (here.tagName === 'SUMMARY' && here.parentElement.open) here.parentElement.open = false; else go(parent(here));
  },
  ArrowRight: here => {
    if (here.tagName !== 'SUMMARY') return;
    if (here.parentElement.open) go(skip(here, below)); else here.parentElement.open = true;
  },
  Enter: mark,
};
document.addEventListener('keydown', event => {
  if (event.ctrlKey || event.altKey || event.metaKey || at('keys').open) return;
  if (event.target.tagName === 'INPUT' || event.target.tagName === 'BUTTON') {
    if (event.key === 'Escape') go(root);
    return;
  }
  if (event.key === '/') at('search').focus();
  else if (event.key === '?') at('keys').showModal();
  else if (event.key in moves) {
    const focused = document.activeElement.closest('nav [data-start]');
    if (focused) moves[event.key](focused); else go(tree.querySelector('.marked') ?? root);
  } else return;
  event.preventDefault();
});

// The search goes over the lines of the tree.
let found = [], current = 0;
function step(by) {
  at('count').textContent = at('search').value ? 'no match' : '';
  if (!found.length) return;
  current = (current + by + found.length) % found.length;
  at('count').textContent = `${current + 1} of ${found.length}`;
  reveal(found[current]);
  mark(found[current]);
}
at('search').addEventListener('input', () => {
  const wanted = at('search').value.toLowerCase();
  for (const line of found) line.classList.remove('found');
  found = wanted ? all('[data-start]', tree).filter(line => !hidden(line) && line.textContent.toLowerCase().includes(wanted)) : [];
  for (const line of found) line.classList.add('found');
  current = 0;
  step(0);
});
at('search').addEventListener('keydown', event => {
  if (event.key === 'Enter') step(event.shiftKey ? -1 : 1);
});

function fold(open) {
  for (const node of all('details', tree)) node.open = open || node.firstElementChild === root;
}
at('fold').addEventListener('click', () => fold(false));
at('unfold').addEventListener('click', () => fold(true));
at('plain').addEventListener('change', () => document.body.classList.toggle('plain', at('plain').checked));
at('help').addEventListener('click', () => at('keys').showModal());
</script>
</html>
";
